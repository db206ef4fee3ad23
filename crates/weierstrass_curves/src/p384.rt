//! The curve P-384 (FIPS 186-4, D.1.2.4; secp384r1 of SEC 2, 2.5.1).

ghost use Rattle.std.specs.Prelude.{◌≡◌};
ghost use Rattle.weierstrass_curves.specs.P384.{p384};

use crate::points::{Curve, Point};
use big_numbers::Modulus;

impl Curve<7> {
    /// The curve P-384.
    #[tactic(auto, unfolding(crate::specs::P384::p384))]
    pub fn p384() -> Curve<7>
        ensures { result ≡ p384 }
    {
        Curve {
            field: Modulus::new([
                0x00000000ffffffff,
                0xffffffff00000000,
                0xfffffffffffffffe,
                0xffffffffffffffff,
                0xffffffffffffffff,
                0xffffffffffffffff,
                0x0000000000000000,
            ]),
            order: Modulus::new([
                0xecec196accc52973,
                0x581a0db248b0a77a,
                0xc7634d81f4372ddf,
                0xffffffffffffffff,
                0xffffffffffffffff,
                0xffffffffffffffff,
                0x0000000000000000,
            ]),
            b: [
                0x2a85c8edd3ec2aef,
                0xc656398d8a2ed19d,
                0x0314088f5013875a,
                0x181d9c6efe814112,
                0x988e056be3f82d19,
                0xb3312fa7e23ee7e4,
                0x0000000000000000,
            ],
            base: Point {
                x: [
                    0x3a545e3872760ab7,
                    0x5502f25dbf55296c,
                    0x59f741e082542a38,
                    0x6e1d3b628ba79b98,
                    0x8eb1c71ef320ad74,
                    0xaa87ca22be8b0537,
                    0x0000000000000000,
                ],
                y: [
                    0x7a431d7c90ea0e5f,
                    0x0a60b1ce1d7e819d,
                    0xe9da3113b5f0b8c0,
                    0xf8f41dbd289a147c,
                    0x5d9e98bf9292dc29,
                    0x3617de4a96262c6f,
                    0x0000000000000000,
                ],
                z: [1, 0, 0, 0, 0, 0, 0],
            },
            digits: 384,
        }
    }
}
