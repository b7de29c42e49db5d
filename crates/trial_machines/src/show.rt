// What is shown of a case, put on a page: the names of its calls, and a table with what goes with it. The words, numbers and refusals in it are
// put there as in every program over a list of cases.
use cases::STDOUT;
pub(crate) use cases::show::{next, refused, signed};
use plate::head::Head;
use plate::settings::Settings;
use text::Page;

pub(crate) fn print(words: &[u8]) {
    io::write_all(STDOUT, words);
}

// The name of a call that is made.
pub(crate) fn call(page: &mut Page, name: &[u8]) {
    page.put_text(b"; ");
    page.put_text(name);
}

// Of no settings there is no cell.
fn cells_of(head: Head) -> usize {
    match Settings::new(head.height, head.members) {
        Ok(settings) => settings.cells,
        Err(_) => 0,
    }
}

pub(crate) fn table(page: &mut Page, head: Head, table: &[u32]) {
    page.put_text(b";");
    cases::show::head(page, head);
    page.put_text(b"; cells");
    for x in table.iter().take(cells_of(head)) {
        next(page, *x);
    }
}
