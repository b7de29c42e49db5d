// The calls for other languages: a thin function over each of the library's, with a reply by value. include/shagorent.h says the same in C.
#![tactic(auto)]

ghost use Rattle.std.specs.Prelude.{◌≡◌};
ghost use Rattle.paper.specs.Layer.{column_of};
ghost use Rattle.paper.specs.Table.{cells};
ghost use Rattle.paper.specs.Sheets.{entries};
ghost use Rattle.paper.specs.Sequence.{M};
ghost use Rattle.plate.specs.Call.{answer_of};
ghost use Rattle.plate.specs.Refusal.{decided};
ghost use Rattle.plate.specs.Head.{held_in};
ghost use Rattle.plate.specs.Settings.{settings_checks};
ghost use Rattle.column.specs.Picture.{picture_answer};
ghost use Rattle.motor.specs.Height.{height_answer};
ghost use Rattle.table.specs.Table.{clearing};
ghost use Rattle.adding.specs.Adding.{adding};
ghost use Rattle.joining.specs.Joining.{joining, taking};
ghost use Rattle.plan.specs.Plan.{planning, sheets_in};
ghost use Rattle.readback.specs.Reading.{reading};
ghost use Rattle.recount.specs.Recount.{recounting};
ghost use Rattle.load.specs.Load.{job_of, loading};
ghost use Rattle.save.specs.Writing.{writing, size_answer};
ghost use Rattle.send.specs.Sending.{sending};
ghost use Rattle.receive.specs.Receiving.{receiving};
ghost use Rattle.orders.specs.Writing.{writing_orders};
ghost use Rattle.orders.specs.Reading.{reading_order};
ghost use Rattle.shagorent.specs.Version.{version};
ghost use Rattle.replies.specs.Replies.{Replies, reply, table_reply, picture_reply, height_reply, job_reply, order_reply};

use adding::add_column;
use column::picture;
use joining::{join_tables, take_off};
use load::read_job;
use motor::motor_height;
use orders::{read_order, write_orders};
use plan::plan;
use plate::head::Head;
use plate::settings::Settings;
use readback::read_back;
use receive::read_table;
use recount::recount;
use replies::{HeightReply, JobReply, OrderReply, PictureReply, Reply, TableReply};
use save::{job_size, write_job};
use send::write_table;
use table::clear_table;

// The version of these calls, as SHAGORENT_VERSION of include/shagorent.h.
#[unsafe(no_mangle)]
pub extern "C" fn shagorent_version() -> u32
    ensures { result ≡ version }
{
    50000
}

// ---- tables, plans, pictures, motors, jobs, table files and order files

#[unsafe(no_mangle)]
pub extern "C" fn shagorent_clear_table(table: &mut [u32], height: u32, members: u32) -> TableReply
    ensures { Replies table_reply (clearing height members table.old) result table.new }
{
    clear_table(table, height, members).into()
}

#[unsafe(no_mangle)]
pub extern "C" fn shagorent_add_column(table: &mut [u32], head: Head, column: &[u16]) -> TableReply
    ensures { Replies table_reply (adding (held_in head table.old) (column_of column.now)) result table.new }
{
    add_column(table, head, column).into()
}

#[unsafe(no_mangle)]
pub extern "C" fn shagorent_join_tables(
    table: &mut [u32],
    head: Head,
    other: &[u32],
    other_head: Head,
) -> TableReply
    ensures { Replies table_reply (joining (held_in head table.old) (held_in other_head other.now)) result table.new }
{
    join_tables(table, head, other, other_head).into()
}

#[unsafe(no_mangle)]
pub extern "C" fn shagorent_take_off(
    table: &mut [u32],
    head: Head,
    other: &[u32],
    other_head: Head,
) -> TableReply
    ensures { Replies table_reply (taking (held_in head table.old) (held_in other_head other.now)) result table.new }
{
    take_off(table, head, other, other_head).into()
}

#[unsafe(no_mangle)]
pub extern "C" fn shagorent_plan(
    table: &[u32],
    head: Head,
    bound: u32,
    errors: &mut [u64],
    thicknesses: &mut [u8],
    list: &mut [u64],
) -> Reply
    ensures { Replies reply (planning (held_in head table.now) bound (sheets_in errors.entry thicknesses.entry list.entry)) result (sheets_in errors.exit thicknesses.exit list.exit) }
{
    plan(table, head, bound, errors, thicknesses, list).into()
}

#[unsafe(no_mangle)]
pub extern "C" fn shagorent_read_back(
    height: u32,
    members: u32,
    errors: &[u64],
    thicknesses: &[u8],
    count: u32,
    out: &mut [i32],
) -> Reply
    ensures { Replies reply (reading height members errors.now thicknesses.now count out.old) result out.new }
{
    read_back(height, members, errors, thicknesses, count, out).into()
}

#[unsafe(no_mangle)]
pub extern "C" fn shagorent_recount(
    table: &[u32],
    head: Head,
    bound: u32,
    sequence: &[i32],
) -> Reply
    ensures { Replies reply (recounting (held_in head table.now) bound sequence.now) result tt }
{
    recount(table, head, bound, sequence).into()
}

#[unsafe(no_mangle)]
pub extern "C" fn shagorent_picture(
    height: u32,
    members: u32,
    column: &[u16],
    start: i32,
    thickness: u32,
) -> PictureReply
    ensures { result ≡ picture_reply (picture_answer height members column.now start thickness) }
{
    picture(column, height, members, start, thickness).into()
}

#[unsafe(no_mangle)]
pub extern "C" fn shagorent_motor_height(step: u32, boundary: i32) -> HeightReply
    ensures { result ≡ height_reply (height_answer step boundary) }
{
    motor_height(step, boundary).into()
}

#[unsafe(no_mangle)]
pub extern "C" fn shagorent_read_job(input: &[u8], most: usize, table: &mut [u32]) -> JobReply
    ensures { Replies job_reply (loading table.old (job_of most input.now)) result table.new }
{
    read_job(input, most, table).into()
}

#[unsafe(no_mangle)]
pub extern "C" fn shagorent_write_job(
    height: u32,
    members: u32,
    bound: u32,
    boundaries: &[u16],
    counts: &[u16],
    out: &mut [u8],
) -> Reply
    ensures { Replies reply (writing height members bound boundaries.now counts.now out.old) result out.new }
{
    write_job(height, members, bound, boundaries, counts, out).into()
}

#[unsafe(no_mangle)]
pub extern "C" fn shagorent_write_table(table: &[u32], head: Head, out: &mut [u8]) -> Reply
    ensures { Replies reply (sending (held_in head table.now) out.old) result out.new }
{
    write_table(table, head, out).into()
}

#[unsafe(no_mangle)]
pub extern "C" fn shagorent_read_table(input: &[u8], table: &mut [u32]) -> TableReply
    ensures { Replies table_reply (receiving input.now table.old) result table.new }
{
    read_table(input, table).into()
}

#[unsafe(no_mangle)]
pub extern "C" fn shagorent_write_orders(
    height: u32,
    members: u32,
    step: u32,
    cure: &[u16],
    sequence: &[i32],
    out: &mut [u8],
) -> Reply
    ensures { Replies reply (writing_orders height members step cure.now sequence.now out.old) result out.new }
{
    write_orders(height, members, step, cure, sequence, out).into()
}

#[unsafe(no_mangle)]
pub extern "C" fn shagorent_read_order(
    height: u32,
    members: u32,
    step: u32,
    cure: &[u16],
    file: &[u8],
    number: u32,
) -> OrderReply
    ensures { result ≡ order_reply (answer_of (reading_order height members step cure.now file.now number)) }
{
    read_order(height, members, step, cure, file, number).into()
}

// ---- sizes, for buffers to be lent: of a job file; of a table, of a sheet, and the greatest count, or refusals 1 and 2

#[unsafe(no_mangle)]
pub extern "C" fn shagorent_job_size(counts: &[u16]) -> Reply
    ensures { result ≡ reply (size_answer counts.now) }
{
    job_size(counts).into()
}

#[unsafe(no_mangle)]
pub extern "C" fn shagorent_cells(height: u32, members: u32) -> Reply
    ensures { result ≡ reply (decided (settings_checks height members) (cells height members)) }
{
    match Settings::new(height, members) {
        Ok(s) => Reply::from(Ok(s.cells as u64)),
        Err(refusal) => Reply::from(Err(refusal)),
    }
}

#[unsafe(no_mangle)]
pub extern "C" fn shagorent_entries(height: u32, members: u32) -> Reply
    ensures { result ≡ reply (decided (settings_checks height members) (entries height members)) }
{
    match Settings::new(height, members) {
        Ok(s) => Reply::from(Ok(s.entries as u64)),
        Err(refusal) => Reply::from(Err(refusal)),
    }
}

#[unsafe(no_mangle)]
pub extern "C" fn shagorent_counts(height: u32, members: u32) -> Reply
    ensures { result ≡ reply (decided (settings_checks height members) (M height members)) }
{
    match Settings::new(height, members) {
        Ok(s) => Reply::from(Ok(s.counts as u64)),
        Err(refusal) => Reply::from(Err(refusal)),
    }
}
