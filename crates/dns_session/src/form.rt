//! What the line of one form is, and reading as many of them as there are.
ghost use Rattle.std.specs.Prelude.{◌≡◌, ◌<◌, ◌^◌, ℕ, List, Option, IfOk, length};
ghost use Rattle.dns_session.specs.LinePlaces.{many, one};
ghost use Rattle.dns_model.specs.Gives.{Gives};

use crate::lines::Lines;
use dns_record::NoMemory;
use std::alloc::Global;

/// What a line of one form says.
pub trait LineForm: Sized + Drop {
    /// What a line says, where it has the form.
    ghost form: { List ℕ → Option Self };

    /// What a line says, where it has the form.
    fn read(alloc: Global, line: &[u8]) -> Result<Option<Self>, NoMemory>
        requires { length line.now < 2 ^ 32 }
        ensures { IfOk result (λ x. x ≡ form line.now) };
}

/// As many lines of a form as there are, and what follows.
pub fn many<'a, F: LineForm>(
    alloc: Global,
    lines: Lines<'a>,
) -> Result<(Vec<F>, Lines<'a>), NoMemory>
    ensures { IfOk result (λ x. (x.0.items, x.1) ≡ many F.form lines.entry) }
{
    let mut all = Vec::new(alloc);
    let mut here = lines;
    while let Some((line, after)) = here.next() {
        match F::read(alloc, line)? {
            Some(item) => all.push(item)?,
            None => return Ok((all, here)),
        }
        here = after;
    }
    Ok((all, here))
}
