//! The curve P-256 (FIPS 186-4, D.1.2.3; secp256r1 of SEC 2, 2.4.2).

ghost use Rattle.std.specs.Prelude.{◌≡◌};
ghost use Rattle.weierstrass_curves.specs.P256.{p256};

use crate::points::{Curve, Point};
use big_numbers::Modulus;

impl Curve<5> {
    /// The curve P-256.
    #[tactic(auto, unfolding(crate::specs::P256::p256))]
    pub fn p256() -> Curve<5>
        ensures { result ≡ p256 }
    {
        Curve {
            field: Modulus::new([
                0xffffffffffffffff,
                0x00000000ffffffff,
                0x0000000000000000,
                0xffffffff00000001,
                0x0000000000000000,
            ]),
            order: Modulus::new([
                0xf3b9cac2fc632551,
                0xbce6faada7179e84,
                0xffffffffffffffff,
                0xffffffff00000000,
                0x0000000000000000,
            ]),
            b: [
                0x3bce3c3e27d2604b,
                0x651d06b0cc53b0f6,
                0xb3ebbd55769886bc,
                0x5ac635d8aa3a93e7,
                0x0000000000000000,
            ],
            base: Point {
                x: [
                    0xf4a13945d898c296,
                    0x77037d812deb33a0,
                    0xf8bce6e563a440f2,
                    0x6b17d1f2e12c4247,
                    0x0000000000000000,
                ],
                y: [
                    0xcbb6406837bf51f5,
                    0x2bce33576b315ece,
                    0x8ee7eb4a7c0f9e16,
                    0x4fe342e2fe1a7f9b,
                    0x0000000000000000,
                ],
                z: [1, 0, 0, 0, 0],
            },
            digits: 256,
        }
    }
}
