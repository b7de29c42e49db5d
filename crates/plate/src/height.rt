// The edge between document 01's whole numbers and the datum: all other code counts heights in natural numbers.
ghost use Rattle.std.specs.Prelude.{◌≡◌};
ghost use Rattle.plate.specs.Datum.{datum, height_of};

// The datum height of z, and 0 for every z of -32 or less.
pub fn datum_of(z: i32) -> usize
    ensures { result ≡ datum z }
{
    (i64::from(z) + 32).max(0) as usize
}

// The whole number that the datum height h stands for.
pub fn height_of(h: u16) -> i32
    ensures { result ≡ height_of h }
{
    i32::from(h) - 32
}
