// Questions: leaves that are asked for, all different and below n.
ghost use Rattle.std.specs.Prelude.{◌≡◌, ◌<◌, length};
ghost use Rattle.refusals.specs.Refusals.{outcome_of};
ghost use Rattle.checks.specs.Questions.{wrong_at, question_refusal};

use refusals::Refusal;

// Whether position p of a question is bad: no leaf, or a repeat of an earlier position.
fn bad_at(n: usize, question: &[u16], p: usize) -> bool
    requires { p < length question.now }
    ensures { result ≡ wrong_at n question.now p }
{
    let x = question[p];
    n <= usize::from(x) || question[..p].contains(&x)
}

// Judges a question: 9, with the first bad position.
pub fn judge_question(n: usize, question: &[u16]) -> Result<(), Refusal>
    ensures { result ≡ outcome_of (question_refusal n question.now) }
{
    for p in 0..question.len() {
        if bad_at(n, question, p) {
            return Err(Refusal::Question(p));
        }
    }
    Ok(())
}
