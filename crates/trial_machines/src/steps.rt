// The steps of a case. Each is a letter, a length in two bytes, and a file of that length: `=` reads the file into the table, `+` joins it in,
// `-` takes it off; and `~`, which has no file, sends the table so far, that is writes it and reads it back.
ghost use Rattle.std.specs.Prelude.{◌≡◌, List, ℕ, None};
ghost use Rattle.plate.specs.Refusal.{after, told};

use crate::show;
use cases::part;
use joining::{join_tables, take_off};
use plate::head::Head;
use plate::refusal::Refusal;
use receive::read_table;
use record::word;
use send::write_table;
use table::clear_table;
use text::Page;

// What the steps work on: a table with what goes with it, another table, and room for a file.
#[derive(Drop)]
pub(crate) struct Work {
    pub(crate) head: Head,
    pub(crate) table: [u32; 128],
    other: [u32; 128],
    output: [u8; 1024],
}

// What a call answers; nothing where it is refused, which is shown, and it then has written nothing.
fn done<T>(page: &mut Page, answer: Result<T, Refusal>) -> Option<T>
    ensures { result ≡ None → (written held : List ℕ) → after (told answer) written held ≡ held }
{
    match answer {
        Ok(value) => Some(value),
        Err(refusal) => {
            show::refused(page, refusal);
            None
        }
    }
}

// What goes with the table after a call on it.
fn answered(page: &mut Page, answer: Result<Head, Refusal>) -> Option<Head>
    ensures { result ≡ None → (written held : List ℕ) → after (told answer) written held ≡ held }
{
    let head = done(page, answer)?;
    show::next(page, head.columns);
    Some(head)
}

fn read(page: &mut Page, file: &[u8], table: &mut [u32]) -> Option<Head>
    ensures { result ≡ None → table.new ≡ table.old }
{
    show::call(page, b"read");
    answered(page, read_table(file, table))
}

impl Work {
    pub(crate) fn new() -> Self {
        Work {
            head: Head::cleared(0, 0),
            table: [0; 128],
            other: [0; 128],
            output: [0; 1024],
        }
    }

    // The file is read into another table, which is joined into the first one or taken off it; a refusal leaves the first as it was. It is told which
    // by the letter, and not by a closure: what a refusal leaves would have to be asked of the closure in a clause longer than both calls.
    fn combine(&mut self, page: &mut Page, letter: u8, file: &[u8]) -> Option<Head>
        ensures { result ≡ None → self.new.table ≡ self.old.table }
    {
        let other_head = read(page, file, &mut self.other)?;
        if letter == b'-' {
            show::call(page, b"take off");
            return answered(
                page,
                take_off(&mut self.table, self.head, &self.other, other_head),
            );
        }
        show::call(page, b"join");
        answered(
            page,
            join_tables(&mut self.table, self.head, &self.other, other_head),
        )
    }

    // The table is cleared between, so that what it then holds came out of the file. It was written with these settings, so the clearing refuses
    // nothing.
    fn read_again(&mut self, page: &mut Page, size: usize) -> Option<Head> {
        let _ = clear_table(&mut self.table, self.head.height, self.head.members);
        read(page, part(&self.output, 0, size), &mut self.table)
    }

    fn trip(&mut self, page: &mut Page) -> Option<Head> {
        show::call(page, b"write");
        let size = done(page, write_table(&self.table, self.head, &mut self.output))?;
        show::next(page, size);
        self.read_again(page, size as usize)
    }

    fn step(&mut self, page: &mut Page, letter: u8, file: &[u8]) -> Option<Head> {
        match letter {
            b'=' => read(page, file, &mut self.table),
            b'~' => self.trip(page),
            _ => self.combine(page, letter, file),
        }
    }

    // All steps, or up to the first that is refused, and then nothing. Before the first there are no settings.
    pub(crate) fn take_steps(&mut self, page: &mut Page, given: &[u8]) -> Option<()> {
        self.head = Head::cleared(0, 0);
        let mut rest = given.get(4..).unwrap_or(&[]);
        while let Some((letter, behind)) = rest.split_first() {
            let end = 2 + usize::from(word(behind, 0));
            // Where the file is cut short, all that is given stands for it.
            let file = behind.get(2..end).unwrap_or(given);
            self.head = self.step(page, *letter, file)?;
            rest = behind.get(end..).unwrap_or(&[]);
        }
        Some(())
    }
}
