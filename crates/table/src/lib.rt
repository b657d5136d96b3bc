// The lent table: opened, checked, stepped in place and read. 01 lends it as a slice of station records with the count beside it, so the two stay two parameters.
#![tactic(auto)]

ghost use Rattle.std.specs.Prelude.{◌≡◌, ◌<◌, length, nat_eq, position};
ghost use Rattle.station.specs.Names.{HOLDING};
ghost use Rattle.station.specs.Codes.{code_of};
ghost use Rattle.table.specs.Table.{head_of, open_code, OpensTo, records_ok, well_formed, sized, seat_of, ActsTo, StepsTo, holder, in_holding};

use rows::Reach;
use station::{Head, Place, Refusal, STATIONS, Station, Step};

// What opening answers, by the length of the table and the count.
#[tactic(auto, unfolding(crate::specs::Table::open_code))]
fn opening(len: usize, n: usize) -> Result<(), Refusal>
    ensures { code_of result ≡ open_code len n }
{
    if !station::count_ok(n) {
        return Err(Refusal::BadCount);
    }
    if len != STATIONS {
        return Err(Refusal::NotWellFormed);
    }
    Ok(())
}

// Opens a network of n stations over whatever the table held.
#[tactic(auto, unfolding(crate::specs::Table::open_code, crate::specs::Table::open_after))]
pub fn open(table: &mut [Station], n: usize) -> Result<(), Refusal>
    ensures { OpensTo n table.old (code_of result) table.new }
{
    opening(table.len(), n)?;
    table.fill(form::new_station());
    Ok(())
}

// Whether a table of len records can be one for n stations.
#[tactic(auto, unfolding(crate::specs::Table::sized))]
fn is_sized(len: usize, n: usize) -> bool
    ensures { result ≡ sized len n }
{
    len == STATIONS && station::count_ok(n)
}

// Whether each record has its form. It stops at the first that has not.
fn records_ok(table: &[Station], n: usize) -> bool
    ensures { result ≡ records_ok n 1 table.now }
{
    table
        .iter()
        .enumerate()
        .all(|(i, station)| form::record_ok(n, i + 1, station))
}

// The check of the whole table.
#[tactic(auto, unfolding(crate::specs::Table::well_formed))]
pub fn well_formed(table: &[Station], n: usize) -> bool
    ensures { result ≡ well_formed n table.now }
{
    is_sized(table.len(), n) && records_ok(table, n)
}

// The index of the peer whose cells a step may touch.
fn seat_of(step: Step, next: u8) -> usize
    ensures { result ≡ seat_of step next }
{
    station::index_of(station::peer_of(step, next))
}

// The step between the stations at the indices i and j: the head and the two cells are read, and stored as they come out.
fn act_on(table: &mut [Station], n: usize, step: Step, i: usize, j: usize) -> Result<(), Refusal>
    requires { ((i < length table.old) × (j < length table.old)) × ((i < 32) × (j < 32)) }
    ensures { ActsTo n step i j table.old (code_of result) table.new }
{
    let reach = Reach {
        head: table[i].head,
        mine: table[i].cells[j],
        theirs: table[j].cells[i],
    };
    let now = rows::act(n, step, reach)?;
    table[i].head = now.head;
    table[i].cells[j] = now.mine;
    table[j].cells[i] = now.theirs;
    Ok(())
}

// One step of the network: the check, then the step.
#[tactic(auto, unfolding(crate::specs::Table::answer, crate::specs::Table::after), using(crate::proofs::Answers::formed_length, station::proofs::Laws::index_below, crate::proofs::Unchanged::unchanged))]
pub fn step(table: &mut [Station], n: usize, step: Step) -> Result<(), Refusal>
    ensures { StepsTo n step table.old (code_of result) table.new }
{
    if !well_formed(table, n) {
        return Err(Refusal::NotWellFormed);
    }
    let i = station::index_of(station::named_by(step));
    let next = table[i].head.next;
    let j = seat_of(step, next);
    act_on(table, n, step, i, j)
}

// The index of the first record in Holding. It reads the places alone, and not each head by `is_in`.
fn seat_in_holding(table: &[Station]) -> Option<usize>
    ensures { result ≡ position (λ station. nat_eq station.head.place HOLDING) table.now }
{
    table
        .iter()
        .position(|station| station.head.place == Place::Holding as u8)
}

// The station that holds the turn, the lowest one in a table that has several.
#[tactic(auto, using(crate::proofs::Holders::none_holds, crate::proofs::Holders::one_holds))]
pub fn holder_of(table: &[Station]) -> Option<usize>
    ensures { result ≡ in_holding (holder table.now) }
{
    let i = seat_in_holding(table)?;
    Some(i + 1)
}

// The head of station s, and zeros where the table has no such record: its contract gives a head for any s.
#[tactic(auto, unfolding(crate::specs::Table::head_of, station::specs::Stations::is_station))]
pub fn head_of(table: &[Station], s: usize) -> Head
    ensures { result ≡ head_of table.now s }
{
    let Some(i) = s.checked_sub(1) else {
        return Head::default();
    };
    let Some(station) = table.get(i) else {
        return Head::default();
    };
    station.head
}
