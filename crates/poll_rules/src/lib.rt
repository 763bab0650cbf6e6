// Polls: the record and the quartet. The rules and their laws stand in specs/ and proofs/.
#![tactic(auto)]

ghost use Rattle.std.specs.Prelude.{◌≡◌};
ghost use Rattle.poll_rules.specs.Records.{four};

// One record of a poll: four leaves a < b < c < d, and a pairing code.
#[repr(C)]
#[derive(Clone, Copy)]
pub struct Record {
    pub a: u8,
    pub b: u8,
    pub c: u8,
    pub d: u8,
    pub code: u8,
}

// Four leaves, a < b < c < d.
#[derive(Clone, Copy)]
pub struct Quartet {
    pub a: usize,
    pub b: usize,
    pub c: usize,
    pub d: usize,
}

// The four leaves of a record, whether they are in order or not.
impl From<Record> for Quartet {
    ghost from_gives = { λ r q. q ≡ four r.a r.b r.c r.d };

    fn from(r: Record) -> Quartet {
        Quartet {
            a: usize::from(r.a),
            b: usize::from(r.b),
            c: usize::from(r.c),
            d: usize::from(r.d),
        }
    }
}
