// N, how many stations a network has.
ghost use Rattle.std.specs.Prelude.{◌≤◌};

#[derive(Clone, Copy)]
pub struct Count {
    pub value: usize,
    ghost in_range: { (2 ≤ value) × (value ≤ 32) },
}

impl Count {
    ghost use Rattle.station.specs.Counts.{CountOf};

    // The count n, where there is such a network.
    #[tactic(auto, unfolding(crate::specs::Stations::count_ok))]
    pub fn new(n: usize) -> Option<Count>
        ensures { CountOf n result }
    {
        if crate::count_ok(n) {
            Some(Count { value: n })
        } else {
            None
        }
    }
}
