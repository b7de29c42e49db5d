// The printer's order list: a plan's layers as orders to lift, to cure and to finish, written as a file, and read from one again. Nothing but a
// plan's own bytes pass as one.
#![tactic(auto)]

ghost use Rattle.std.specs.Prelude.{◌≡◌, cond, ◌&&◌, ◌++◌, ◌+◌, ◌*◌, ◌≤◌, ◌<◌, ltb, eqb, nat_abs, ◌-ℤ◌, length};
ghost use Rattle.std.proofs.lemmas.List.Edits.{sets};
ghost use Rattle.lists.specs.Checks.{first};
ghost use Rattle.lists.specs.Search.{lowest, IsLowest};
ghost use Rattle.paper.specs.Sequence.{◌!◌, count, thickness};
ghost use Rattle.plate.specs.Call.{Does};
ghost use Rattle.plate.specs.Refusal.{said_by, told, decided};
ghost use Rattle.plate.specs.Settings.{Sound, Judges};
ghost use Rattle.record.specs.Written.{bytes16, bytes32, framed};
ghost use Rattle.printed.specs.Possible.{cure_of, usable};
ghost use Rattle.printed.specs.Paper.{layers_to};
ghost use Rattle.printed.specs.Bytes.{bytes_of};
ghost use Rattle.orders.specs.declared.Order.TheVariants as order;
ghost use Rattle.orders.specs.Layer.{printed_layer, Exactly, height_bits, cure_bits};
ghost use Rattle.orders.specs.Kinds.{number_of, Decodes, lift_kind, cure_kind, finish_kind, allowed_after, fits as Kind·fits};
ghost use Rattle.orders.specs.Lent.{lent_checks};
ghost use Rattle.orders.specs.Written.{record_bytes};
ghost use Rattle.orders.specs.File.{lift_place, grown, lifts_by, thickness_at, next_checks, lift_checks, cure_checks, layer_checks, finish_checks, file_checks};
ghost use Rattle.orders.specs.Writing.{filing, writing_orders};
ghost use Rattle.orders.specs.Reading.{order_in, reading_order};
ghost use Rattle.orders.specs.Parts.{most_rise, Climbs, Standing, Looked, IsThickness, picked};

use motor::check_step;
use plate::height::datum_of;
use plate::refusal::{Reason, Refusal, refusal_at};
use plate::settings::{Settings, is_allowed};
use record::{Fault, check_frame, check_tail, kind_at, length_at, quad, word, write_numbers};
use recount::check_sequence;

// The kinds of records.
#[derive(Clone, Copy)]
pub enum Kind {
    Lift,
    Cure,
    Finish,
}

impl Kind {
    // The kind's number in a file.
    pub fn number(self) -> u16
        ensures { result ≡ number_of self }
    {
        match self {
            Kind::Lift => 48,
            Kind::Cure => 49,
            Kind::Finish => 50,
        }
    }
}

// A number that no kind of record has.
#[derive(Clone, Copy)]
pub struct UnknownKind(pub u16);

impl TryFrom<u16> for Kind {
    type Error = UnknownKind;

    ghost try_from_gives = { Decodes };

    fn try_from(number: u16) -> Result<Self, UnknownKind> {
        match number {
            48 => Ok(Kind::Lift),
            49 => Ok(Kind::Cure),
            50 => Ok(Kind::Finish),
            _ => Err(UnknownKind(number)),
        }
    }
}

// A layer as printed: its upper height above the first boundary and its thickness in micrometres, its cure time in seconds. Document 01, 'Choosing
// the form by place', asks for a struct of three f32.
#[derive(Clone, Copy)]
pub struct Printed {
    pub height: f32,
    pub thickness: f32,
    pub cure: f32,
}

// Lift to so many micrometres above the first boundary, cure for so many seconds, finish after so many layers: the enum that the same page asks for.
#[derive(Clone, Copy)]
pub enum Order {
    Lift(f32),
    Cure(f32),
    Finish(u32),
}

// The layers that were read: their number, the thickness of the first, and how high they are together, in units. The first is a number and no Option:
// `no_layers` in specs/File, which may not change, has 0 there before the first layer.
#[derive(Clone, Copy)]
pub struct Stack {
    pub layers: usize,
    pub first: usize,
    pub rise: usize,
}

// ---- a layer as printed

// The one way to a layer as printed, for writer and reader. What it asks for keeps every product below 2^24, so that nothing is rounded. Document 01,
// 'Choosing the form by place', asks for whole numbers cast to f32 and then divided.
fn as_printed(rise: usize, thickness: usize, step: u32, cure: u16) -> Printed
    requires { (rise < 1024) × (thickness < 1024) × (step ≤ 8192) }
    ensures { (result ≡ printed_layer rise thickness step cure) × Exactly result rise thickness step cure }
{
    Printed {
        height: (rise as u32 * step) as f32 / 8.0,
        thickness: (thickness as u32 * step) as f32 / 8.0,
        cure: cure as f32 / 64.0,
    }
}

// The bits of a layer's height, and of its cure time. They stay two functions: one that is told which field to take, by a closure, is no plainer.
fn height_bits(rise: usize, thickness: usize, step: u32, cure: u16) -> u32
    requires { (rise < 1024) × (thickness < 1024) × (step ≤ 8192) }
    ensures { result ≡ height_bits step rise }
{
    let layer = as_printed(rise, thickness, step, cure);
    f32::to_bits(layer.height)
}

fn cure_bits(rise: usize, thickness: usize, step: u32, cure: u16) -> u32
    requires { (rise < 1024) × (thickness < 1024) × (step ≤ 8192) }
    ensures { result ≡ cure_bits cure }
{
    let layer = as_printed(rise, thickness, step, cure);
    f32::to_bits(layer.cure)
}

// ---- the cure list

// The entry of a thickness.
fn entry_of(cure: &[u16], t: usize) -> u16
    requires { 1 ≤ t }
    ensures { result ≡ cure_of cure.now t }
{
    cure.get(t - 1).copied().unwrap_or(0)
}

// Whether a thickness is in the set, and its cure time isn't 0.
fn is_usable(members: u32, cure: &[u16], t: usize) -> bool
    ensures { result ≡ usable members cure.now t }
{
    is_allowed(members, t) && 0 < entry_of(cure, t)
}

// What both calls are handed beside a sequence or a file: 1, 2, 14, 3 for the list.
fn check_lent(height: u32, members: u32, step: u32, cure: &[u16]) -> Result<Settings, Refusal>
    ensures { Judges result (lent_checks height members step cure.now) height members }
{
    let s = Settings::new(height, members)?;
    check_step(step)?;
    if cure.len() < s.tmax {
        return Err(refusal_at(Reason::ShortBuffer, 1));
    }
    Ok(s)
}

// ---- the writer

// The two records of a layer. A number of four bytes is written as two of two, the lower first.
fn write_layer(out: &mut [u8], at: usize, rise: usize, thickness: usize, step: u32, cure: u16)
    requires rise_bound { (rise < 1024) × (thickness < 1024) × (step ≤ 8192) }
    requires at_in_bounds { at + 16 ≤ length out.old }
    ensures { out.new ≡ sets out.old at (framed lift_kind (bytes32 (height_bits step rise)) ++ framed cure_kind (bytes32 (cure_bits cure))) }
{
    let lift = height_bits(rise, thickness, step, cure);
    let time = cure_bits(rise, thickness, step, cure);
    let numbers = [
        4,
        Kind::Lift.number(),
        (lift % 65536) as u16,
        (lift / 65536) as u16,
        4,
        Kind::Cure.number(),
        (time % 65536) as u16,
        (time / 65536) as u16,
    ];
    write_numbers(out, at, &numbers);
}

// The last record.
fn write_finish(out: &mut [u8], at: usize, layers: usize)
    requires { (layers < 65536) × (at + 6 ≤ length out.old) }
    ensures { out.new ≡ sets out.old at (framed finish_kind (bytes16 layers)) }
{
    let numbers = [2, Kind::Finish.number(), layers as u16];
    write_numbers(out, at, &numbers);
}

// A sequence that passed 13, so that its boundaries rise.
#[derive(Clone, Copy)]
struct Rising<'a> {
    boundaries: &'a [i32],
    ghost climbs: { Climbs boundaries.now },
}

impl<'a> Rising<'a> {
    // How far one boundary is above another.
    fn distance(&self, from: usize, to: usize) -> usize
        requires { (from < to) × (to < length self.now.boundaries.now) }
        ensures { (result ≡ nat_abs (self.now.boundaries.now ! to -ℤ self.now.boundaries.now ! from)) × (1 ≤ result) × (result < 1024) }
    {
        datum_of(self.boundaries[to]) - datum_of(self.boundaries[from])
    }

    // Whether the cure time of layer k, from 0, is 0.
    fn is_uncured(&self, cure: &[u16], k: usize) -> bool
        requires { k + 1 < length self.now.boundaries.now }
        ensures { result ≡ eqb (cure_of cure.now (thickness self.now.boundaries.now k)) 0 }
    {
        entry_of(cure, self.distance(k, k + 1)) == 0
    }

    // The first layer, from 0, whose cure time is 0.
    fn first_uncured(&self, cure: &[u16]) -> Option<usize>
        ensures { IsLowest result (λ k. eqb (cure_of cure.now (thickness self.now.boundaries.now k)) 0) (count self.now.boundaries.now) }
    {
        (0..self.boundaries.len() - 1).find(|k| self.is_uncured(cure, *k))
    }

    // The records of all layers.
    fn write_layers(&self, step: u32, cure: &[u16], out: &mut [u8])
        requires steps { step ≤ 8192 }
        requires out_in_bounds { lift_place (count self.now.boundaries.now) ≤ length out.old }
        ensures { out.new ≡ sets out.old 0 (bytes_of (record_bytes step) (layers_to cure.now self.now.boundaries.now (count self.now.boundaries.now))) }
    {
        for k in 0..self.boundaries.len() - 1 {
            let rise = self.distance(0, k + 1);
            let t = self.distance(k, k + 1);
            write_layer(out, 16 * k, rise, t, step, entry_of(cure, t));
        }
    }

    // Where the sequence is one to be ordered: 18, 3 for the output; or the file, and its length.
    fn write_file(&self, step: u32, cure: &[u16], out: &mut [u8]) -> Result<u64, Refusal>
        requires { step ≤ 8192 }
        ensures { Does (filing step cure.now self.now.boundaries.now out.old) (told result) out.new }
    {
        let count = self.boundaries.len() - 1;
        if let Some(uncured) = self.first_uncured(cure) {
            return Err(refusal_at(Reason::NoCure, uncured + 1));
        }
        let size = 16 * count + 6;
        if out.len() < size {
            return Err(refusal_at(Reason::ShortBuffer, 2));
        }
        self.write_layers(step, cure, out);
        write_finish(out, 16 * count, count);
        Ok(size as u64)
    }
}

// Document 02 e), the writer of order files: 1, 2, 14, 3 for the list, 13, 18, 3 for the output.
pub fn write_orders(
    height: u32,
    members: u32,
    step: u32,
    cure: &[u16],
    sequence: &[i32],
    out: &mut [u8],
) -> Result<u64, Refusal>
    ensures { Does (writing_orders height members step cure.now sequence.now out.old) (told result) out.new }
{
    check_lent(height, members, step, cure)?;
    check_sequence(height, members, sequence)?;
    let rising = Rising {
        boundaries: sequence,
    };
    rising.write_file(step, cure, out)
}

// ---- the reader

// Whether a record of the kind of this number may come after so many layers.
fn allowed_after(layers: usize, number: u16) -> bool
    ensures { result ≡ allowed_after layers number }
{
    match Kind::try_from(number) {
        Ok(Kind::Lift) => true,
        Ok(Kind::Cure) => false,
        Ok(Kind::Finish) => 0 < layers,
        Err(_) => false,
    }
}

// Whether a body of this length is right for the kind of this number.
fn fits(number: u16, length: usize) -> bool
    ensures { result ≡ Kind·fits number length }
{
    match Kind::try_from(number) {
        Ok(Kind::Lift) => length == 4,
        Ok(Kind::Cure) => length == 4,
        Ok(Kind::Finish) => length == 2,
        Err(_) => length == 4,
    }
}

// What stands after so many layers, before its body is looked at.
fn check_next(file: &[u8], layers: usize) -> Result<(), Refusal>
    requires { layers ≤ most_rise }
    ensures { said_by result ≡ first (next_checks file.now layers) }
{
    let at = 16 * layers;
    let number = kind_at(file, at);
    let right = fits(number, length_at(file, at));
    check_frame(file, at, allowed_after(layers, number), right)
}

// The finish, behind its frame: the number of layers, which reach the plate's height, and nothing behind it.
fn check_finish(s: Settings, file: &[u8], read: Stack) -> Result<(), Refusal>
    requires { read.layers ≤ most_rise }
    ensures { said_by result ≡ first (finish_checks s.height file.now read) }
{
    let at = 16 * read.layers;
    if usize::from(word(file, at + 4)) != read.layers {
        return Err(Fault::Disagrees.at(at));
    }
    if read.rise < s.height {
        return Err(Fault::Disagrees.at(at));
    }
    check_tail(file, at + 6)
}

// One layer more.
fn grow(read: Stack, t: usize) -> Stack
    requires { (read.layers ≤ most_rise) × (read.rise ≤ most_rise) × (t ≤ most_rise) }
    ensures { result ≡ grown read t }
{
    Stack {
        layers: read.layers + 1,
        first: if read.layers == 0 { t } else { read.first },
        rise: read.rise + t,
    }
}

// The order asked for, if it is one of the next layer's two, or else what was known of it before.
fn order_in(before: Order, number: u32, layers: usize, layer: Printed) -> Order
    requires { layers ≤ most_rise }
    ensures { result ≡ picked before number layers layer }
{
    if number as usize == 2 * layers {
        return Order::Lift(layer.height);
    }
    if number as usize == 2 * layers + 1 {
        return Order::Cure(layer.cure);
    }
    before
}

// The order asked for where the file is read to its finish.
fn order_of(
    s: Settings,
    file: &[u8],
    read: Stack,
    number: u32,
    found: Order,
) -> Result<Order, Refusal>
    requires { read.layers ≤ most_rise }
    ensures { told result ≡ decided (finish_checks s.height file.now read) (cond (ltb number (2 * read.layers)) found (order.Finish read.layers)) }
{
    check_finish(s, file, read)?;
    if (number as usize) < 2 * read.layers {
        return Ok(found);
    }
    Ok(Order::Finish(read.layers as u32))
}

// What the reader is handed beside the file, as it passed: the plate's settings, the motor's step, and the cure list.
#[derive(Clone, Copy)]
struct Setup<'a> {
    settings: Settings,
    step: u32,
    cure: &'a [u16],
    ghost sound: { Sound settings },
    ghost steps: { step ≤ 8192 },
}

impl<'a> Setup<'a> {
    // Whether a lift by a thickness has these bits.
    fn lifts_by(&self, rise: usize, t: usize, bits: u32) -> bool
        requires { rise + t < 1024 }
        ensures { result ≡ usable self.now.settings.members self.now.cure.now t && eqb bits (height_bits self.now.step (rise + t)) }
    {
        is_usable(self.settings.members, self.cure, t)
            && bits == height_bits(rise + t, t, self.step, entry_of(self.cure, t))
    }

    // The thickness that a lift with these bits is by.
    fn lift_by(&self, rise: usize, bits: u32) -> Option<usize>
        requires { rise ≤ most_rise }
        ensures { IsThickness result (lowest (lifts_by self.now.settings.members self.now.step self.now.cure.now rise bits) self.now.settings.tmax) self.now.settings.tmax }
    {
        (1..self.settings.tmax + 1).find(|t| self.lifts_by(rise, *t, bits))
    }

    // The lift of the next layer, behind its frame: the layer's thickness, or 21.
    fn check_lift(&self, file: &[u8], read: Stack) -> Result<usize, Refusal>
        requires { Standing self.now.step read }
        ensures { Looked result (lift_checks self.now.settings.height self.now.settings.members self.now.step self.now.cure.now file.now read) (thickness_at self.now.settings.members self.now.step self.now.cure.now file.now read) read self.now.step }
    {
        let at = 16 * read.layers;
        let Some(t) = self.lift_by(read.rise, quad(file, at + 4)) else {
            return Err(Fault::Disagrees.at(at));
        };
        if read.layers != 0 && self.settings.height + read.first <= read.rise + 1 {
            return Err(Fault::Disagrees.at(at));
        }
        Ok(t)
    }

    // The cure time of a layer that was lifted: its frame, and its bytes.
    fn check_cure(&self, file: &[u8], read: Stack, t: usize) -> Result<(), Refusal>
        requires { Standing self.now.step (grown read t) × (1 ≤ t) }
        ensures { said_by result ≡ first (cure_checks self.now.cure.now file.now read.layers t) }
    {
        let at = 16 * read.layers + 8;
        let allowed = kind_at(file, at) == Kind::Cure.number();
        let right = length_at(file, at) == 4;
        check_frame(file, at, allowed, right)?;
        if quad(file, at + 4) != cure_bits(read.rise + t, t, self.step, entry_of(self.cure, t)) {
            return Err(Fault::Disagrees.at(at));
        }
        Ok(())
    }

    // The next layer, behind the frame of its lift: its thickness, or the refusal of one of its two records.
    fn read_layer(&self, file: &[u8], read: Stack) -> Result<usize, Refusal>
        requires { Standing self.now.step read }
        ensures { Looked result (layer_checks self.now.settings.height self.now.settings.members self.now.step self.now.cure.now file.now read) (thickness_at self.now.settings.members self.now.step self.now.cure.now file.now read) read self.now.step }
    {
        let t = self.check_lift(file, read)?;
        self.check_cure(file, read, t)?;
        Ok(t)
    }

    // The whole file, record by record: its first fault, or the order asked for. The loop goes by what was read, and a layer that is refused ends it.
    fn read_file(&self, file: &[u8], number: u32) -> Result<Order, Refusal>
        ensures { told result ≡ decided (file_checks self.now.settings.height self.now.settings.members self.now.step self.now.cure.now file.now) (order_in self.now.settings.members self.now.step self.now.cure.now file.now number) }
    {
        let mut read = Stack {
            layers: 0,
            first: 0,
            rise: 0,
        };
        let mut order = Order::Finish(0);
        while 16 * read.layers < file.len() {
            check_next(file, read.layers)?;
            if kind_at(file, 16 * read.layers) == Kind::Finish.number() {
                return order_of(self.settings, file, read, number, order);
            }
            let t = self.read_layer(file, read)?;
            order = order_in(
                order,
                number,
                read.layers,
                as_printed(read.rise + t, t, self.step, entry_of(self.cure, t)),
            );
            read = grow(read, t);
        }
        Err(Fault::Cut.at(16 * read.layers))
    }
}

// Document 02 e), the reader of order files: 1, 2, 14, 3 for the list, the file's faults by record. The whole file is judged, also behind the order
// asked for.
pub fn read_order(
    height: u32,
    members: u32,
    step: u32,
    cure: &[u16],
    file: &[u8],
    number: u32,
) -> Result<Order, Refusal>
    ensures { Does (reading_order height members step cure.now file.now number) (told result) tt }
{
    let settings = check_lent(height, members, step, cure)?;
    let setup = Setup {
        settings,
        step,
        cure,
    };
    setup.read_file(file, number)
}
