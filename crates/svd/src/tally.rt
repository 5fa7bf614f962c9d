// What a walk counts.
// Kept: a drop and a sweep apart, as `after_drop` and `after_sweep` of method; four must-fail edits are here.
// Kept: `TallyRoom` is asked, since `tally_dropped` and `tally_swept` add and stop at no largest number.
ghost use Rattle.std.specs.Prelude.{◌≡◌, ◌≤◌};
ghost use Rattle.method.specs.Walk.{tally_begun, tally_dropped, tally_swept};
ghost use Rattle.method.specs.Walk.Loop.{TallyRoom};
ghost use Rattle.svd.specs.Values.{tally_of};

// The range of the live corner, the passes made so far, each a sweep or a drop, and the rotations
// that the sweeps computed.
#[derive(Clone, Copy, Debug, Default, PartialEq, Eq)]
pub struct Tally {
    pub range: usize,
    pub passes: usize,
    pub sweeps: usize,
    pub drops: usize,
    pub rotations: usize,
}

impl Tally {
    // At the start, over a diagonal of `card` entries.
    pub(crate) fn begun(card: usize) -> Tally
        ensures { tally_of result ≡ tally_begun card }
    {
        Tally {
            range: card,
            ..Tally::default()
        }
    }

    // After a pass that drops.
    pub(crate) fn dropped(mut self) -> Tally
        requires { (1 ≤ self.range) × TallyRoom 1 0 (tally_of self) }
        ensures { tally_of result ≡ tally_dropped (tally_of self) }
    {
        self.range -= 1;
        self.passes += 1;
        self.drops += 1;
        self
    }

    // After a pass that sweeps, and computes so many rotations.
    pub(crate) fn swept(mut self, turns: usize) -> Tally
        requires { TallyRoom 1 turns (tally_of self) }
        ensures { tally_of result ≡ tally_swept turns (tally_of self) }
    {
        self.passes += 1;
        self.sweeps += 1;
        self.rotations += turns;
        self
    }
}
