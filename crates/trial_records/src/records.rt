// Records read one after the other, each in the state and at the place that the one before left.
use crate::show::print_page;
use cases::show;
use job::{Asked, Cursor, Read, State, Step};
use plate::head::Head;
use plate::refusal::refusal_at;
use text::Page;

pub(crate) fn show_bound(page: &mut Page, bound: u32) {
    page.put_text(b", bound");
    show::next(page, bound);
}

fn show_state(page: &mut Page, state: State) {
    page.put_text(b"; begun");
    show::next(page, u64::from(state.begun));
    page.put_text(b", ended");
    show::next(page, u64::from(state.ended));
    page.put_text(b",");
    show::head(page, state.head);
    show_bound(page, state.bound);
}

fn show_asked(page: &mut Page, asked: Asked) {
    page.put_text(b" settings height");
    show::next(page, asked.height);
    page.put_text(b", members");
    show::next(page, asked.members);
    show_bound(page, asked.bound);
}

fn show_read(page: &mut Page, read: Read) {
    match read {
        Read::Settings(asked) => show_asked(page, asked),
        Read::Column { start, count } => {
            page.put_text(b" column of");
            show::next(page, count);
            page.put_text(b" from");
            show::next(page, start);
        }
        Read::End(columns) => {
            page.put_text(b" end");
            show::next(page, columns);
        }
        Read::Remark => page.put_text(b" remark"),
        Read::Fault { reason, place } => show::refused(page, refusal_at(reason, place)),
    }
}

fn show_step(page: &mut Page, step: Step) {
    page.put_text(b":");
    show_read(page, step.read);
    show_state(page, step.state);
    page.put_text(b", at");
    show::next(page, step.cursor.at);
}

// On a page of its own, since a line may ask for any number of steps.
fn print_step(room: &mut [u8], step: Step) {
    let mut page = Page::new(room, 0);
    show_step(&mut page, step);
    let end = page.written();
    print_page(room, end);
}

// A number of a state; the greatest of 32 bits where it is greater.
fn narrow(number: u64) -> u32 {
    u32::try_from(number).unwrap_or(u32::MAX)
}

fn state_of(numbers: [u64; 8]) -> State {
    let head = Head {
        height: narrow(numbers[2]),
        members: narrow(numbers[3]),
        columns: narrow(numbers[4]),
    };
    State {
        begun: 0 < numbers[0],
        ended: 0 < numbers[1],
        head,
        bound: narrow(numbers[5]),
    }
}

// So many records, by the numbers of a state and of a place.
pub(crate) fn records(numbers: [u64; 8], input: &[u8], room: &mut [u8]) {
    let mut state = state_of(numbers);
    let mut cursor = Cursor {
        at: numbers[6] as usize,
    };
    for _ in 0..numbers[7] {
        let step = cursor.read(input, state);
        print_step(room, step);
        cursor = step.cursor;
        state = step.state;
    }
}
