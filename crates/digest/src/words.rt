// Operations on words of 32 bits: FIPS 180-4, 3.2 and 4.1.2.
ghost use Rattle.std.specs.Prelude.{◌≡◌};
ghost use Rattle.digest.specs.Words as Spec;

pub(crate) fn ch(x: u32, y: u32, z: u32) -> u32
    ensures { result ≡ Spec.ch x y z }
{
    (x & y) ^ (!x & z)
}

pub(crate) fn maj(x: u32, y: u32, z: u32) -> u32
    ensures { result ≡ Spec.maj x y z }
{
    (x & y) ^ (x & z) ^ (y & z)
}

// 4.1.2 defines the four sigmas one by one, and so they stand: one function over the amounts would still be called by four such lines, and the
// last operation differs.
pub(crate) fn big_sigma0(x: u32) -> u32
    ensures { result ≡ Spec.big_sigma0 x }
{
    x.rotate_right(2) ^ x.rotate_right(13) ^ x.rotate_right(22)
}

pub(crate) fn big_sigma1(x: u32) -> u32
    ensures { result ≡ Spec.big_sigma1 x }
{
    x.rotate_right(6) ^ x.rotate_right(11) ^ x.rotate_right(25)
}

pub(crate) fn small_sigma0(x: u32) -> u32
    ensures { result ≡ Spec.small_sigma0 x }
{
    x.rotate_right(7) ^ x.rotate_right(18) ^ (x >> 3)
}

pub(crate) fn small_sigma1(x: u32) -> u32
    ensures { result ≡ Spec.small_sigma1 x }
{
    x.rotate_right(17) ^ x.rotate_right(19) ^ (x >> 10)
}
