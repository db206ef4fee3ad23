//! Points in projective coordinates, their sums and multiples, and the test of ECDSA (FIPS 186-4, 6.4).

ghost use Rattle.std.specs.Prelude.{◌≡◌, ◌==◌, ◌*◌, ◌<◌, ◌≤◌, length, true, false};
ghost use Rattle.big_numbers.specs.Limbs.{value};
ghost use Rattle.big_numbers.specs.Residues.{product};
ghost use Rattle.weierstrass_curves.specs.Points.{IsBelow, IsCurve, PartsBelow, TermsBelow, affine_x, ecdsa_accepts, has_x, in_order, is_on_curve, joined, multiple, parts, passes, point_sum, terms, triple, two_multiples};

use big_numbers::{Modulus, digit, is_equal, set_small};
use std::marker::Model;

/// A point in projective coordinates.
#[derive(Drop)]
pub struct Point<const N: usize> {
    pub(crate) x: [u64; N],
    pub(crate) y: [u64; N],
    pub(crate) z: [u64; N],
}

impl<const N: usize> Model for Point<N> {
    ghost use Rattle.big_numbers.specs.Limbs.{value};
    ghost use Rattle.weierstrass_curves.specs.Points.{PointValue};

    ghost Value = { PointValue };

    ghost view = { λ p. record { x = value p.x; y = value p.y; z = value p.z } };
}

/// The products of the coordinates of two points.
#[derive(Drop)]
struct Parts<const N: usize> {
    xx: [u64; N],
    yy: [u64; N],
    zz: [u64; N],
    xy: [u64; N],
    xz: [u64; N],
    yz: [u64; N],
}

impl<const N: usize> Model for Parts<N> {
    ghost use Rattle.big_numbers.specs.Limbs.{value};
    ghost use Rattle.weierstrass_curves.specs.Points.{PartsValue};

    ghost Value = { PartsValue };

    ghost view = { λ p. record {
      xx = value p.xx;
      yy = value p.yy;
      zz = value p.zz;
      xy = value p.xy;
      xz = value p.xz;
      yz = value p.yz;
    } };
}

/// What is the same in each coordinate of a sum.
#[derive(Drop)]
struct Terms<const N: usize> {
    t: [u64; N],
    u: [u64; N],
    w: [u64; N],
}

impl<const N: usize> Model for Terms<N> {
    ghost use Rattle.big_numbers.specs.Limbs.{value};
    ghost use Rattle.weierstrass_curves.specs.Points.{TermsValue};

    ghost Value = { TermsValue };

    ghost view = { λ v. record { t = value v.t; u = value v.u; w = value v.w } };
}

/// A curve y^2 = x^3 - 3x + b over the numbers modulo a prime, with a point of prime order.
#[derive(Drop)]
pub struct Curve<const N: usize> {
    pub(crate) field: Modulus<N>,
    pub(crate) order: Modulus<N>,
    pub(crate) b: [u64; N],
    pub(crate) base: Point<N>,
    pub(crate) digits: usize,
}

impl<const N: usize> Model for Curve<N> {
    ghost use Rattle.big_numbers.specs.Limbs.{value};
    ghost use Rattle.weierstrass_curves.specs.Points.{CurveValue, IsCurve};

    ghost Value = { CurveValue };

    ghost use Rattle.std.specs.Prelude.{◌*◌, ◌<◌, ◌≤◌, length};

    ghost view = { λ c. record { m = value c.field.limbs; n = value c.order.limbs; b = value c.b; base = c.base; digits = c.digits } };

    ghost invariant = { λ c. IsCurve (record { m = value c.field.limbs; n = value c.order.limbs; b = value c.b; base = c.base; digits = c.digits }) × (c.digits ≤ 64 * length c.b) × (0 < length c.b) };
}

impl<const N: usize> Curve<N> {
    /// The sum of two points, whichever they are.
    #[tactic(auto, unfolding(crate::specs::Points::point_sum))]
    pub fn add(&self, p: &Point<N>, q: &Point<N>) -> Point<N>
        requires few { N ≤ 7 }
        requires p { IsBelow self.now.m p.now }
        requires q { IsBelow self.now.m q.now }
        ensures sum { result ≡ point_sum self.now.m self.now.b p.now q.now }
        ensures below { IsBelow self.now.m result }
    {
        let parts = self.parts(p, q);
        let terms = self.terms(&parts);
        self.joined(&parts, &terms)
    }

    /// The sum of a point and itself.
    #[tactic(auto, unfolding(crate::specs::Points::point_sum))]
    fn double(&self, p: &Point<N>) -> Point<N>
        requires few { N ≤ 7 }
        requires p { IsBelow self.now.m p.now }
        ensures sum { result ≡ point_sum self.now.m self.now.b p.now p.now }
        ensures below { IsBelow self.now.m result }
    {
        let parts = self.squares(p);
        let terms = self.terms(&parts);
        self.joined(&parts, &terms)
    }

    /// The products of the coordinates of a point with themselves.
    #[tactic(auto, unfolding(crate::specs::Points::parts))]
    fn squares(&self, p: &Point<N>) -> Parts<N>
        requires few { N ≤ 7 }
        requires p { IsBelow self.now.m p.now }
        ensures parts { result ≡ parts self.now.m p.now p.now }
        ensures below { PartsBelow self.now.m result }
    {
        let m = &self.field;
        let xy = m.multiply(&p.x, &p.y);
        let xz = m.multiply(&p.x, &p.z);
        let yz = m.multiply(&p.y, &p.z);
        Parts {
            xx: m.multiply(&p.x, &p.x),
            yy: m.multiply(&p.y, &p.y),
            zz: m.multiply(&p.z, &p.z),
            xy: m.add(&xy, &xy),
            xz: m.add(&xz, &xz),
            yz: m.add(&yz, &yz),
        }
    }

    /// The products of the coordinates of two points.
    #[tactic(auto, unfolding(crate::specs::Points::parts))]
    fn parts(&self, p: &Point<N>, q: &Point<N>) -> Parts<N>
        requires few { N ≤ 7 }
        requires p { IsBelow self.now.m p.now }
        requires q { IsBelow self.now.m q.now }
        ensures parts { result ≡ parts self.now.m p.now q.now }
        ensures below { PartsBelow self.now.m result }
    {
        let m = &self.field;
        Parts {
            xx: m.multiply(&p.x, &q.x),
            yy: m.multiply(&p.y, &q.y),
            zz: self.times(&p.z, &q.z),
            xy: m.add(&m.multiply(&p.x, &q.y), &m.multiply(&q.x, &p.y)),
            xz: m.add(&self.times(&p.x, &q.z), &m.multiply(&q.x, &p.z)),
            yz: m.add(&self.times(&p.y, &q.z), &m.multiply(&q.y, &p.z)),
        }
    }

    /// The product, quick where the second number is 1, as of an affine point.
    fn times(&self, a: &[u64; N], b: &[u64; N]) -> [u64; N]
        requires few { N ≤ 7 }
        requires below { value a.now < self.now.m }
        ensures value { value result ≡ product self.now.m (value a.now) (value b.now) }
        ensures below { value result < self.now.m }
    {
        self.known();
        if is_equal(b, &small::<N>(1)) {
            return *a;
        }
        self.field.multiply(a, b)
    }

    /// What of the products is the same in each coordinate of the sum.
    #[tactic(auto, unfolding(crate::specs::Points::terms))]
    fn terms(&self, parts: &Parts<N>) -> Terms<N>
        requires few { N ≤ 7 }
        requires parts { PartsBelow self.now.m parts.now }
        ensures terms { result ≡ terms self.now.m self.now.b parts.now }
        ensures below { TermsBelow self.now.m result }
    {
        let m = &self.field;
        Terms {
            t: self.triple(&m.subtract(&m.multiply(&self.b, &parts.zz), &parts.xz)),
            u: self.triple(&m.subtract(
                &m.subtract(&m.multiply(&self.b, &parts.xz), &parts.xx),
                &self.triple(&parts.zz),
            )),
            w: self.triple(&m.subtract(&parts.xx, &parts.zz)),
        }
    }

    /// Three times a number.
    #[tactic(auto, unfolding(crate::specs::Points::triple))]
    fn triple(&self, a: &[u64; N]) -> [u64; N]
        requires few { N ≤ 7 }
        requires below { value a.now < self.now.m }
        ensures triple { value result ≡ triple self.now.m (value a.now) }
        ensures below { value result < self.now.m }
    {
        let m = &self.field;
        m.add(&m.add(a, a), a)
    }

    /// The sum of two points, by the products of their coordinates.
    #[tactic(auto, unfolding(crate::specs::Points::joined))]
    fn joined(&self, parts: &Parts<N>, terms: &Terms<N>) -> Point<N>
        requires few { N ≤ 7 }
        requires parts { PartsBelow self.now.m parts.now }
        requires terms { TermsBelow self.now.m terms.now }
        ensures joined { result ≡ joined self.now.m parts.now terms.now }
        ensures below { IsBelow self.now.m result }
    {
        let m = &self.field;
        let above = m.add(&parts.yy, &terms.t);
        let below = m.subtract(&parts.yy, &terms.t);
        Point {
            x: m.subtract(
                &m.multiply(&parts.xy, &below),
                &m.multiply(&parts.yz, &terms.u),
            ),
            y: m.add(&m.multiply(&above, &below), &m.multiply(&terms.w, &terms.u)),
            z: m.add(
                &m.multiply(&parts.yz, &above),
                &m.multiply(&parts.xy, &terms.w),
            ),
        }
    }

    /// The multiple of a point by a number, digit by digit from the highest.
    fn multiple(&self, p: &Point<N>, k: &[u64; N]) -> Point<N>
        requires few { N ≤ 7 }
        requires p { IsBelow self.now.m p.now }
        ensures multiple { result ≡ multiple self.now.m self.now.b p.now self.now.digits (value k.now) }
        ensures below { IsBelow self.now.m result }
    {
        self.known();
        let mut q = Point {
            x: small(0),
            y: small(1),
            z: small(0),
        };
        for done in 0..self.digits {
            q = self.step(p, &q, digit(k, self.digits - 1 - done));
        }
        q
    }

    /// What holds of each curve.
    fn known(&self)
        requires few { N ≤ 7 }
        ensures curve { IsCurve self.now }
        ensures digits { self.now.digits ≤ 64 * N }
        ensures some { 0 < N }
    {
        let _field = &self.field;
    }

    /// The double of a point, and where the digit is 1 a point more.
    fn step(&self, p: &Point<N>, q: &Point<N>, one: bool) -> Point<N>
        requires few { N ≤ 7 }
        requires p { IsBelow self.now.m p.now }
        requires q { IsBelow self.now.m q.now }
        ensures more { one ≡ true → result ≡ point_sum self.now.m self.now.b (point_sum self.now.m self.now.b q.now q.now) p.now }
        ensures double { one ≡ false → result ≡ point_sum self.now.m self.now.b q.now q.now }
        ensures below { IsBelow self.now.m result }
    {
        let twice = self.double(q);
        if !one {
            return twice;
        }
        self.add(&twice, p)
    }

    /// The numbers satisfy the curve's equation.
    #[tactic(auto, unfolding(crate::specs::Points::is_on_curve))]
    fn is_on_curve(&self, x: &[u64; N], y: &[u64; N]) -> bool
        requires few { N ≤ 7 }
        requires x { value x.now < self.now.m }
        requires y { value y.now < self.now.m }
        ensures { result ≡ is_on_curve self.now.m self.now.b (value x.now) (value y.now) }
    {
        let m = &self.field;
        let cube = m.multiply(&m.multiply(x, x), x);
        let right = m.add(&m.subtract(&cube, &self.triple(x)), &self.b);
        is_equal(&m.multiply(y, y), &right)
    }

    /// The x of an affine point.
    #[tactic(auto, unfolding(crate::specs::Points::affine_x))]
    fn affine_x(&self, p: &Point<N>) -> [u64; N]
        requires few { N ≤ 7 }
        ensures { value result ≡ affine_x self.now.m p.now }
    {
        self.field.multiply(&p.x, &self.field.inverse(&p.z))
    }

    /// The multiple of the base point and that of another one, added.
    #[tactic(auto, unfolding(crate::specs::Points::two_multiples))]
    fn two_multiples(&self, q: &Point<N>, u: &[u64; N], v: &[u64; N]) -> Point<N>
        requires few { N ≤ 7 }
        requires q { IsBelow self.now.m q.now }
        ensures { result ≡ two_multiples self.now q.now (value u.now) (value v.now) }
    {
        self.add(&self.multiple(&self.base, u), &self.multiple(q, v))
    }

    /// The point is not at infinity, and its x is the number modulo the order.
    #[tactic(auto, unfolding(crate::specs::Points::has_x))]
    fn has_x(&self, p: &Point<N>, r: &[u64; N]) -> bool
        requires few { N ≤ 7 }
        ensures { result ≡ has_x self.now p.now (value r.now) }
    {
        self.known();
        !is_zero(&p.z) && is_equal(&self.order.reduced(&self.affine_x(p)), r)
    }

    /// The equation of ECDSA holds (FIPS 186-4, 6.4; SEC 1, 4.1.4, steps 4 to 8).
    #[tactic(auto, unfolding(crate::specs::Points::passes))]
    fn passes(&self, q: &Point<N>, e: &[u64; N], r: &[u64; N], s: &[u64; N]) -> bool
        requires few { N ≤ 7 }
        requires q { IsBelow self.now.m q.now }
        ensures { result ≡ passes self.now q.now (value e.now) (value r.now) (value s.now) }
    {
        let n = &self.order;
        let w = n.inverse(s);
        let p = self.two_multiples(q, &n.multiply(e, &w), &n.multiply(r, &w));
        self.has_x(&p, r)
    }

    /// A part of a signature is from 1 to the order less 1.
    fn in_order(&self, number: &[u64; N]) -> bool
        requires few { N ≤ 7 }
        ensures { result ≡ in_order self.now.n (value number.now) }
    {
        self.known();
        !is_zero(number) && self.order.is_above(number)
    }

    /// The signature (r, s) over a digest e is that of the key (x, y): the key is a point of the curve with coordinates below
    /// the prime, r and s are from 1 to the order less 1, and the equation holds (SEC 1, 3.2.2.1 and 4.1.4).
    pub fn accepts(
        &self,
        x: &[u64; N],
        y: &[u64; N],
        e: &[u64; N],
        r: &[u64; N],
        s: &[u64; N],
    ) -> bool
        requires few { N ≤ 7 }
        ensures { result ≡ ecdsa_accepts self.now (value x.now) (value y.now) (value e.now) (value r.now) (value s.now) }
    {
        if !self.field.is_above(x) || !self.field.is_above(y) || !self.is_on_curve(x, y) {
            return false;
        }
        if !self.in_order(r) || !self.in_order(s) {
            return false;
        }
        self.known();
        let q = Point {
            x: *x,
            y: *y,
            z: small(1),
        };
        self.passes(&q, e, r, s)
    }
}

/// The number is zero.
fn is_zero<const N: usize>(limbs: &[u64; N]) -> bool
    requires { 0 < N }
    ensures { result ≡ (value limbs.now == 0) }
{
    is_equal(limbs, &small::<N>(0))
}

/// A number of one limb.
pub fn small<const N: usize>(limb: u64) -> [u64; N]
    requires { 0 < N }
    ensures { value result ≡ limb }
{
    let mut limbs = [0; N];
    set_small(&mut limbs, limb);
    limbs
}
