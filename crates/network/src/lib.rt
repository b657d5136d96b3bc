// A network that is owned and not lent: its count and its table travel together, and the crate table's own functions work on the table.
#![tactic(auto)]

ghost use Rattle.network.specs.Network.{FreshNetwork, OpensNetwork, StepsNetwork};

use station::{Head, Refusal, STATIONS, Station, Step};

// A network: how many stations it has, and their records. Any count and any records, since a step answers for each (`StepsNetwork`).
#[derive(Clone, Copy)]
pub struct Network {
    pub count: usize,
    pub table: [Station; STATIONS],
}

// What a step answers, and what is to be seen after it: the head of the station that the step names, and the station in Holding.
#[derive(Clone, Copy)]
pub struct Stepped {
    pub answer: Result<(), Refusal>,
    pub head: Head,
    pub holder: Option<usize>,
}

impl Network {
    // The records that an opening writes, with any count beside them; with one that `open` refuses, each step is refused.
    #[tactic(auto, unfolding(crate::specs::Network::opened_for, table::specs::Table::opened))]
    pub fn fresh(count: usize) -> Network
        ensures { FreshNetwork count result }
    {
        Network {
            count,
            table: [form::new_station(); STATIONS],
        }
    }

    // Opens a table of its own, so that a caller needs none to lend.
    #[tactic(auto, unfolding(crate::specs::Network::opened_for, table::specs::Table::open_after))]
    pub fn open(count: usize) -> Result<Network, Refusal>
        ensures { OpensNetwork count result }
    {
        let mut network = Network::fresh(count);
        table::open(&mut network.table, count)?;
        Ok(network)
    }

    // One step: the table is lent to `table::step`, and then read.
    #[tactic(auto, unfolding(crate::specs::Network::stepped_by))]
    pub fn step(&mut self, step: Step) -> Stepped
        ensures { StepsNetwork self.old step result self.new }
    {
        let answer = table::step(&mut self.table, self.count, step);
        Stepped {
            answer,
            head: table::head_of(&self.table, station::named_by(step)),
            holder: table::holder_of(&self.table),
        }
    }
}
