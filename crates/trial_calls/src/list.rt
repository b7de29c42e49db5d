// The list, line by line. A line that begins with a buffer's name lays numbers into it, one that begins with `show` shows some of it, one that
// begins with a call's name makes that call, and one that begins with a number sign is a heading. Any other line is passed over.
use crate::line::Numbers;
use crate::memory::{Element, lay, show_front};
use crate::{calls, show};
use cases::{Lines, Number, part};
use text::Page;

// The buffers that stay from line to line.
#[derive(Clone, Copy)]
enum Buffer {
    Table,
    Errors,
    Thicknesses,
}

// What is answered on a page.
#[derive(Clone, Copy)]
enum Call {
    Picture,
    Motor,
    Show(Buffer),
    Clear,
    Add,
    Join,
    TakeOff,
    Check,
    Recount,
    Plan,
    ReadBack,
}

// What a line asks for.
#[derive(Clone, Copy)]
enum Command {
    Heading,
    Lay(Buffer),
    Answer(Call),
}

// The words that a line begins with. None of them begins with another.
const WORDS: [(&[u8], Command); 17] = [
    (b"#", Command::Heading),
    (b"picture", Command::Answer(Call::Picture)),
    (b"motor", Command::Answer(Call::Motor)),
    (b"table", Command::Lay(Buffer::Table)),
    (b"show table", Command::Answer(Call::Show(Buffer::Table))),
    (b"clear", Command::Answer(Call::Clear)),
    (b"add", Command::Answer(Call::Add)),
    (b"join", Command::Answer(Call::Join)),
    (b"take off", Command::Answer(Call::TakeOff)),
    (b"check", Command::Answer(Call::Check)),
    (b"recount", Command::Answer(Call::Recount)),
    (b"errors", Command::Lay(Buffer::Errors)),
    (b"show errors", Command::Answer(Call::Show(Buffer::Errors))),
    (b"thicknesses", Command::Lay(Buffer::Thicknesses)),
    (
        b"show thicknesses",
        Command::Answer(Call::Show(Buffer::Thicknesses)),
    ),
    (b"plan", Command::Answer(Call::Plan)),
    (b"read back", Command::Answer(Call::ReadBack)),
];

impl Command {
    fn of(line: &[u8]) -> Option<Self> {
        for (word, command) in WORDS {
            if line.starts_with(word) {
                return Some(command);
            }
        }
        None
    }
}

// Those buffers, of the greatest sizes and some room past them.
#[derive(Drop)]
struct Kept {
    table: [u32; 18400],
    errors: [u64; 330700],
    thicknesses: [u8; 330700],
}

// A page has room for what any call puts on it. The most is that of a sequence: what was answered, in fewer than 100 bytes, and 600 boundaries
// of at most 12 each.
const ROOM: usize = 32768;

fn print_heading(line: &[u8]) {
    show::print(line);
    show::print(b"\n");
}

fn show_kept<T: Element + Number>(page: &mut Page, line: &[u8], buffer: &[T]) {
    let mut numbers = Numbers::after(line, b':');
    show_front(page, buffer, numbers.next());
}

impl Kept {
    fn lay(&mut self, buffer: Buffer, line: &[u8]) {
        match buffer {
            Buffer::Table => lay(&mut self.table, line, b':'),
            Buffer::Errors => lay(&mut self.errors, line, b':'),
            Buffer::Thicknesses => lay(&mut self.thicknesses, line, b':'),
        }
    }

    fn show(&self, page: &mut Page, buffer: Buffer, line: &[u8]) {
        match buffer {
            Buffer::Table => show_kept(page, line, &self.table),
            Buffer::Errors => show_kept(page, line, &self.errors),
            Buffer::Thicknesses => show_kept(page, line, &self.thicknesses),
        }
    }

    fn call(&mut self, page: &mut Page, call: Call, line: &[u8]) {
        match call {
            Call::Picture => calls::picture(page, line),
            Call::Motor => calls::motor(page, line),
            Call::Show(buffer) => self.show(page, buffer, line),
            Call::Clear => calls::clear(page, line, &mut self.table),
            Call::Add => calls::add(page, line, &mut self.table),
            Call::Join => calls::combine(page, line, &mut self.table, joining::join_tables),
            Call::TakeOff => calls::combine(page, line, &mut self.table, joining::take_off),
            Call::Check => calls::check(page, line, &self.table),
            Call::Recount => calls::recount(page, line, &self.table),
            Call::Plan => calls::plan(
                page,
                line,
                &self.table,
                &mut self.errors,
                &mut self.thicknesses,
            ),
            Call::ReadBack => calls::read_back(page, line, &self.errors, &self.thicknesses),
        }
    }

    // A line's label, and the page of its call.
    fn print_call(&mut self, room: &mut [u8], call: Call, line: &[u8]) {
        show::print_label(line);
        let mut page = Page::new(room, 0);
        self.call(&mut page, call, line);
        let end = page.written();
        show::print(part(room, 0, end));
        show::print(b"\n");
    }

    fn run(&mut self, room: &mut [u8], command: Command, line: &[u8]) {
        match command {
            Command::Heading => print_heading(line),
            Command::Lay(buffer) => self.lay(buffer, line),
            Command::Answer(call) => self.print_call(room, call, line),
        }
    }
}

pub(crate) fn run(list: &[u8]) {
    let mut kept = Kept {
        table: [0; 18400],
        errors: [0; 330700],
        thicknesses: [0; 330700],
    };
    let mut room = [0u8; ROOM];
    for line in Lines::of(list) {
        if let Some(command) = Command::of(line) {
            kept.run(&mut room, command, line);
        }
    }
}
