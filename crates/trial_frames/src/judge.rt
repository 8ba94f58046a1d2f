// What is wrong, counted and printed.
use std::fmt::Display;
use std::io;

// Counts wrong entries, and prints the first.
#[derive(Drop)]
pub struct Judge<'a, R: Print> {
    rt: &'a R,
    pub wrong: u64,
}

impl<'a, R: Print> Judge<'a, R> {
    pub fn new(rt: &'a R) -> Judge<'a, R> {
        Judge { rt, wrong: 0 }
    }

    // An entry of a list with this name.
    pub fn entry<T: PartialEq + Display>(
        &mut self,
        name: &str,
        at: usize,
        got: &T,
        wanted: &T,
    ) -> io::Result<()> {
        if got == wanted {
            return Ok(());
        }
        if self.wrong == 0 {
            println!(self.rt; "WRONG {name} {at}: {got}, wanted {wanted}")?;
        }
        self.wrong = self.wrong.saturating_add(1);
        Ok(())
    }
}

// The number of wrong entries of a list, of which the first is printed.
pub fn wrong_entries<T: PartialEq + Display>(
    rt: &impl Print,
    name: &str,
    got: &[T],
    wanted: &[T],
) -> io::Result<u64> {
    let mut judge = Judge::new(rt);
    for (at, (got, wanted)) in got.iter().zip(wanted).enumerate() {
        judge.entry(name, at, got, wanted)?;
    }
    Ok(judge.wrong)
}
