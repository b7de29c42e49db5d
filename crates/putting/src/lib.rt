// A last layer put on the sequences of one row, count after count: where planning spends its time. The two sheets are lent in part: of the
// thickness sheet the entries of the counts that it ends at, of the error sheet those from the first that it starts from to the last that it
// ends at.
#![tactic(auto)]

ghost use Rattle.std.specs.Prelude.{◌≡◌, ◌-◌, length};
ghost use Rattle.putting.specs.Putting.{sum_or_none, Placed, PutOn, PutAll};

// An entry with a layer's error more, and none where there is none: only none and an error above 0 come to more than the greatest entry.
#[tactic(auto, unfolding(crate::specs::Putting::sum_or_none))]
fn sum_or_none(e: u64, cell: u32) -> u64
    ensures { result ≡ sum_or_none e cell }
{
    e.saturating_add(u64::from(cell))
}

// A last layer to be put on: its error, its thickness, and how far after the entries that it starts from those lie that it ends at.
#[derive(Clone, Copy)]
struct Layer {
    apart: usize,
    cell: u32,
    t: u8,
}

impl Layer {
    // Put on the sequences of the count m: the entry that lies `apart` after the count's becomes the better of what it is and of the count's with
    // the layer.
    fn put_on(self, errors: &mut [u64], thicknesses: &mut [u8], m: usize)
        requires { Placed self.apart m 1 errors.old thicknesses.old }
        ensures { PutOn self.apart m self.cell self.t 1 errors.old thicknesses.old errors.new thicknesses.new }
    {
        let c = sum_or_none(errors[m], self.cell);
        let to = self.apart + m;
        if c < errors[to] {
            errors[to] = c;
            thicknesses[m] = self.t;
        }
    }

    // Put on the sequences of N counts from `first` on.
    fn put_run<const N: usize>(self, errors: &mut [u64], thicknesses: &mut [u8], first: usize)
        requires { Placed self.apart first N errors.old thicknesses.old }
        ensures { PutOn self.apart first self.cell self.t N errors.old thicknesses.old errors.new thicknesses.new }
    {
        for k in 0..N {
            self.put_on(errors, thicknesses, first + k);
        }
    }

    // Put on the sequences of the counts from `first` on, one by one.
    fn put_few(self, errors: &mut [u64], thicknesses: &mut [u8], first: usize)
        requires { Placed self.apart first (length thicknesses.old - first) errors.old thicknesses.old }
        ensures { PutOn self.apart first self.cell self.t (length thicknesses.old - first) errors.old thicknesses.old errors.new thicknesses.new }
    {
        for m in first..thicknesses.len() {
            self.put_on(errors, thicknesses, m);
        }
    }

    // Put on the sequences of all counts by eights, which is where planning spends its time: a turn's own cost is shared by eight counts. What is
    // left of eight goes one by one.
    // One `for` over all counts was tried: the largest plate's plan takes 39.7 million instructions so, and 25.7 by eights.
    fn put_many(self, errors: &mut [u64], thicknesses: &mut [u8])
        requires { Placed self.apart 0 (length thicknesses.old) errors.old thicknesses.old }
        ensures { PutOn self.apart 0 self.cell self.t (length thicknesses.old) errors.old thicknesses.old errors.new thicknesses.new }
    {
        let eights = thicknesses.len() / 8;
        for i in 0..eights {
            self.put_run::<8>(errors, thicknesses, i * 8);
        }
        self.put_few(errors, thicknesses, eights * 8);
    }
}

// A last layer put on the sequences of as many counts as the thickness sheet's part has: it starts from the first entries of the error sheet's
// part and ends at the last ones. Where those would overlap nothing is done.
pub fn put_all(errors: &mut [u64], thicknesses: &mut [u8], cell: u32, t: u8)
    ensures { PutAll cell t errors.old thicknesses.old errors.new thicknesses.new }
{
    let n = thicknesses.len();
    if n <= errors.len() / 2 {
        let apart = errors.len() - n;
        Layer { apart, cell, t }.put_many(errors, thicknesses);
    }
}
