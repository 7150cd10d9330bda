// Texts written into a lent output: a byte, fixed bytes, a number, a signed number. Each writer returns the place after
// what it wrote, and asks only that its text fits.

#![tactic(auto)]

ghost use Rattle.std.specs.Prelude.{◌≡◌, true, [], ◌∷◌, ◌++◌, pos, nat_abs};
ghost use Rattle.std.specs.Int.Signed.{lt_z};
ghost use Rattle.definition.specs.Texts.{digits, signed};
ghost use Rattle.text_write.specs.Put.{Room, Wrote};

pub fn put_byte(output: &mut [u8], at: usize, b: u8) -> usize
    requires { Room (b ∷ []) output.old at }
    ensures { Wrote (b ∷ []) output.old at output.new result }
{
    output[at] = b;
    at + 1
}

// Fixed bytes, as b"cell ".
pub fn put_bytes(output: &mut [u8], at: usize, text: &[u8]) -> usize
    requires { Room text.now output.old at }
    ensures { Wrote text.now output.old at output.new result }
{
    let mut p = at;
    for b in text {
        p = put_byte(&mut *output, p, *b);
    }
    p
}

// A number in as many digits as it needs.
pub fn put_number(output: &mut [u8], at: usize, n: u32) -> usize
    requires { Room (digits n) output.old at }
    ensures { Wrote (digits n) output.old at output.new result }
{
    if n < 10 {
        return put_byte(output, at, b'0' + n as u8);
    }
    let p = put_number(&mut *output, at, n / 10);
    put_byte(output, p, b'0' + (n % 10) as u8)
}

// A number and the byte after it.
pub fn put_field(output: &mut [u8], at: usize, n: u32, after: u8) -> usize
    requires { Room (digits n ++ (after ∷ [])) output.old at }
    ensures { Wrote (digits n ++ (after ∷ [])) output.old at output.new result }
{
    let p = put_number(&mut *output, at, n);
    put_byte(output, p, after)
}

// A number with `-` before it if it is negative.
pub fn put_signed(output: &mut [u8], at: usize, z: i32) -> usize
    requires { Room (signed z) output.old at }
    ensures { Wrote (signed z) output.old at output.new result }
{
    let size = z.unsigned_abs();
    if z < 0 {
        let p = put_byte(&mut *output, at, b'-');
        return put_number(output, p, size);
    }
    put_number(output, at, size)
}
