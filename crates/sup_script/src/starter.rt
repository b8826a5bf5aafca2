//! The start function of scripts.

ghost use Rattle.std.specs.Prelude.{◌≡◌};
ghost use Rattle.sup_script.specs.Starter.{script_answer, is_gap_at, is_within};

use sup_format::{read_number, split_once};
use sup_types::{Answer, FixedStarter, Starter, Text};

/// Answers by the child's argument and the moment alone.
///
/// `ignore` is answered by Ignore, and `fail` by Failed(1). An argument `gap:A:B` with two numbers A and B is answered by Failed(1)
/// at the moments from A on that are before B. Everything else runs.
#[derive(Clone, Copy, Debug)]
pub struct ScriptStarter;

impl FixedStarter for ScriptStarter {
    ghost answer = { script_answer };

    fn start_fixed(&self, arg: &Text, moment: u64) -> Answer {
        let bytes = arg.bytes();
        if bytes == b"ignore".as_slice() {
            return Answer::Ignore;
        }
        if bytes == b"fail".as_slice() || is_gap_at(bytes, moment) {
            return Answer::Failed(1);
        }
        Answer::Running
    }
}

impl Starter for ScriptStarter {
    ghost use Rattle.std.specs.Prelude.{◌≡◌};
    ghost use Rattle.sup_script.specs.Starter.{script_answer};

    ghost may_answer = { λ arg moment answer. answer ≡ script_answer arg moment };

    fn start(&self, arg: &Text, moment: u64) -> Answer {
        self.start_fixed(arg, moment)
    }
}

/// Returns whether an argument is `gap:A:B` of two numbers between which the moment is.
fn is_gap_at(bytes: &[u8], moment: u64) -> bool
    ensures { result ≡ is_gap_at bytes.now moment }
{
    let Some(numbers) = bytes.strip_prefix(b"gap:".as_slice()) else {
        return false;
    };
    let Some((from, to)) = split_once(numbers, b':') else {
        return false;
    };
    is_within(from, to, moment)
}

/// Returns whether both words are numbers, between which the moment is.
fn is_within(from: &[u8], to: &[u8], moment: u64) -> bool
    ensures { result ≡ is_within from.now to.now moment }
{
    match (read_number(from), read_number(to)) {
        (Some(from), Some(to)) => from <= moment && moment < to,
        _ => false,
    }
}
