// The form of one record: as opening writes it, and as 01 asks of it in a table. It is asked of any count n, station s and peer t, so these are plain numbers.
#![tactic(auto)]

ghost use Rattle.std.specs.Prelude.{◌≡◌, ◌-◌, take, drop};
ghost use Rattle.std.specs.List.{list_all};
ghost use Rattle.form.specs.Form.{new_station, empty_cells, in_use, cell_ok, cells_ok, next_ok, due_ok, own_ok, head_ok, new_head, record_ok};

use station::{Cells, Head, Place, STATIONS, Station};

// A head as opening writes it.
const NEW_HEAD: Head = Head {
    place: Place::Idle as u8,
    own: 0,
    high: 0,
    next: 1,
    due: 0,
};

// A record as opening writes it.
pub fn new_station() -> Station
    ensures { result ≡ new_station }
{
    Station {
        head: NEW_HEAD,
        cells: [Cells::default(); STATIONS],
    }
}

#[tactic(auto, unfolding(crate::specs::Form::empty_cells))]
fn are_empty(cells: Cells) -> bool
    ensures { result ≡ empty_cells cells }
{
    cells == Cells::default()
}

// Whether all of some cells are empty. A fold, and no `all`: it goes on past one that is not, and so asks many at once.
fn are_all_empty(all: &[Cells]) -> bool
    ensures { result ≡ list_all empty_cells all.now }
{
    all.iter()
        .fold(true, |empty, cells| empty & are_empty(*cells))
}

// Whether the cells of station s for itself are empty, where there are such.
#[tactic(auto, using(crate::proofs::Scans::own_cut))]
fn are_own_empty(s: usize, all: &[Cells]) -> bool
    ensures { result ≡ list_all empty_cells (take (s - (s - 1)) (drop (s - 1) all.now)) }
{
    let len = all.len();
    are_all_empty(&all[s.saturating_sub(1).min(len)..s.min(len)])
}

// Whether the cells for peers above n are empty.
#[tactic(auto, using(crate::proofs::Scans::rest_cut))]
fn are_empty_above(n: usize, all: &[Cells]) -> bool
    ensures { result ≡ list_all empty_cells (drop n all.now) }
{
    are_all_empty(&all[n.min(all.len())..])
}

// The cells of station s among n: those for itself and for peers above n are empty; in a record above n all are.
#[tactic(auto, using(crate::proofs::Scans::cells_unused, crate::proofs::Scans::cells_used))]
fn cells_ok(n: usize, s: usize, all: &[Cells]) -> bool
    ensures { result ≡ cells_ok n s 1 all.now }
{
    if n < s {
        return are_all_empty(all);
    }
    are_own_empty(s, all) && are_empty_above(n, all)
}

#[tactic(auto, unfolding(crate::specs::Form::next_ok))]
fn next_ok(n: usize, head: Head) -> bool
    ensures { result ≡ next_ok n head }
{
    match Place::try_from(head.place) {
        Ok(Place::Sending | Place::Giving) => station::is_station(n, head.next as usize),
        _ => head.next == 1,
    }
}

#[tactic(auto, unfolding(crate::specs::Form::due_ok))]
fn due_ok(n: usize, head: Head) -> bool
    ensures { result ≡ due_ok n head }
{
    match Place::try_from(head.place) {
        Ok(Place::Sending | Place::Waiting) => (head.due as usize) < n,
        _ => head.due == 0,
    }
}

#[tactic(auto, unfolding(crate::specs::Form::own_ok))]
fn own_ok(head: Head) -> bool
    ensures { result ≡ own_ok head }
{
    !station::is_asking(head.place) || head.own != 0
}

#[tactic(auto, unfolding(crate::specs::Form::head_ok))]
fn head_ok(n: usize, head: Head) -> bool
    ensures { result ≡ head_ok n head }
{
    Place::try_from(head.place).is_ok() && next_ok(n, head) && due_ok(n, head) && own_ok(head)
}

#[tactic(auto, unfolding(crate::specs::Form::new_head))]
fn is_new(head: Head) -> bool
    ensures { result ≡ new_head head }
{
    head == NEW_HEAD
}

// Whether a record has the form of station s among n; above n, that of a record that no station uses.
#[tactic(auto, unfolding(crate::specs::Form::record_ok))]
pub fn record_ok(n: usize, s: usize, station: &Station) -> bool
    ensures { result ≡ record_ok n s station.now }
{
    let front = if s <= n {
        head_ok(n, station.head)
    } else {
        is_new(station.head)
    };
    front && cells_ok(n, s, &station.cells)
}
