// What is printed, and what is put on a page of an order.
use cases::STDOUT;
use cases::show::next;
use orders::Order;
use text::Page;

pub(crate) fn print(words: &[u8]) {
    io::write_all(STDOUT, words);
}

fn pattern(page: &mut Page<'_>, bits: u32) {
    page.put_text(b" bits");
    next(page, bits);
}

// The bits of a float. A NaN, which alone differs from itself, has not one pattern only.
fn bits(page: &mut Page<'_>, x: f32) {
    if x == x {
        pattern(page, f32::to_bits(x));
        return;
    }
    page.put_text(b" not a number");
}

pub(crate) fn order(page: &mut Page<'_>, order: Order) {
    match order {
        Order::Lift(height) => {
            page.put_text(b" lift,");
            bits(page, height);
        }
        Order::Cure(seconds) => {
            page.put_text(b" cure,");
            bits(page, seconds);
        }
        Order::Finish(count) => {
            page.put_text(b" finish, layers");
            next(page, count);
        }
    }
}
