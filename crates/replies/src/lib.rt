// The reply of a C call: the number of a refusal, or 0, and a figure, in one number of 64 bits.
#![tactic(auto)]

ghost use Rattle.std.specs.Prelude.{◌≡◌, cond, ℕ, ◌+◌, ◌*◌, ◌%◌, ◌<◌};
ghost use Rattle.refusals.specs.Refusals.{figures_of};
ghost use Rattle.replies.specs.Replies.{eight_bits, figure_limit, figure, in_one, refusal_reply};
ghost use Rattle.replies.specs.inner.Told.{told_reply, told_number};

use refusals::Refusal;

// How many numbers eight bits hold, and how many 56 do.
const EIGHT_BITS: usize = 256;

const FIGURE_LIMIT: usize = 72057594037927936;

// A number and the lowest 56 bits of a figure above it. For the crates above.
pub fn in_one(number: u32, figure: usize) -> u64
    requires { number < eight_bits }
    ensures { result ≡ in_one number figure }
{
    number as u64 + (EIGHT_BITS * (figure % FIGURE_LIMIT)) as u64
}

// Two figures as one, 256 i + j: its lowest 56 bits are right.
pub fn two_figures(i: usize, j: usize) -> usize
    ensures { result % figure_limit ≡ (eight_bits * i + j) % figure_limit }
{
    EIGHT_BITS * (i % (FIGURE_LIMIT / EIGHT_BITS)) + j % FIGURE_LIMIT
}

// The figures of a refusal as one number: its lowest 56 bits are right.
fn figure_of(r: Refusal) -> usize
    ensures { result % figure_limit ≡ figure (figures_of r) % figure_limit }
{
    match r {
        Refusal::LeafCount => 0,
        Refusal::InputLength => 0,
        Refusal::OutputRoom => 0,
        Refusal::Diagonal(i) => i,
        Refusal::Halves(i, j) => two_figures(i, j),
        Refusal::NoTree => 0,
        Refusal::Child(p) => p,
        Refusal::NamedBefore(p) => p,
        Refusal::Question(p) => p,
        Refusal::Record(k) => k,
        Refusal::PairingCode(k) => k,
        Refusal::Proposal(k) => k,
        Refusal::SheetEnds => 0,
        Refusal::SheetLength => 0,
        Refusal::Name(i) => i,
        Refusal::SameName(i) => i,
        Refusal::Grammar(k) => k,
        Refusal::NotBinary => 0,
        Refusal::Unmatched => 0,
        Refusal::NotOwn => 0,
    }
}

// The reply of a refused call.
pub fn refusal_reply(r: Refusal) -> u64
    ensures { result ≡ refusal_reply r }
{
    in_one(u32::from(r), figure_of(r))
}

// A result that a reply tells by a figure.
pub trait Figured {
    // What the figure is.
    ghost told: { Self → ℕ };

    // The figure: its lowest 56 bits are right.
    fn figure(self) -> usize
        ensures { result % figure_limit ≡ told self % figure_limit };
}

// A result that stands in a lent buffer: the figure is 0.
impl Figured for () {
    ghost told = { λ _. 0 };

    fn figure(self) -> usize {
        0
    }
}

// Yes or no: the figure is 1 or 0.
impl Figured for bool {
    ghost told = { λ yes. cond yes 1 0 };

    fn figure(self) -> usize {
        match self {
            true => 1,
            false => 0,
        }
    }
}

// A number is its own figure.
impl Figured for u8 {
    ghost told = { λ number. number };

    fn figure(self) -> usize {
        usize::from(self)
    }
}

impl Figured for usize {
    ghost told = { λ number. number };

    fn figure(self) -> usize {
        self
    }
}

impl Figured for u64 {
    ghost told = { λ number. number };

    fn figure(self) -> usize {
        self as usize
    }
}

// The reply of a call with this answer: the figure of its result, or the refusal's number and figure.
pub fn reply<T: Figured>(answer: Result<T, Refusal>) -> u64
    ensures { result ≡ told_reply T.told answer }
{
    match answer {
        Ok(found) => in_one(0, found.figure()),
        Err(r) => refusal_reply(r),
    }
}

// The reply of a call that, where it is accepted, has this number for a result.
pub fn reply_with(x: usize, answer: Result<(), Refusal>) -> u64
    ensures { result ≡ told_reply (λ _. x) answer }
{
    match answer {
        Ok(()) => in_one(0, x),
        Err(r) => refusal_reply(r),
    }
}

// The number of an answer: 0, or the refusal's.
pub fn answer_number<T: Drop>(answer: Result<T, Refusal>) -> u32
    ensures { result ≡ told_number answer }
{
    match answer {
        Ok(_) => 0,
        Err(r) => u32::from(r),
    }
}
