//! Points in extended homogeneous coordinates, their sums and multiples (RFC 8032, 5.1.4).

ghost use Rattle.std.specs.Prelude.{◌≡◌, ◌≤◌, length, true, false};
ghost use Rattle.big_numbers.specs.Limbs.{value};
ghost use Rattle.edwards_curves.specs.Numbers.{curve_d, prime};
ghost use Rattle.edwards_curves.specs.Points.{double_factors, double_terms, is_same_point, joined, multiple, neutral, point_double, point_sum, prepared, prepared_sum, sum_factors, sum_terms};

use crate::field::Element;
use big_numbers::digit;
use std::marker::Model;

/// A point (x/z, y/z), where t/z is the product of its coordinates.
#[derive(Drop)]
pub struct Point {
    pub x: Element,
    pub y: Element,
    pub z: Element,
    pub t: Element,
}

impl Model for Point {
    ghost use Rattle.edwards_curves.specs.Points.{PointValue};

    ghost Value = { PointValue };

    ghost view = { λ p. record { x = p.x; y = p.y; z = p.z; t = p.t } };
}

/// What of a point is the same in each sum that it's added to.
#[derive(Drop)]
struct Summand {
    less: Element,
    more: Element,
    scaled: Element,
    z: Element,
}

impl Model for Summand {
    ghost use Rattle.edwards_curves.specs.Points.{SummandValue};

    ghost Value = { SummandValue };

    ghost view = { λ s. record { less = s.less; more = s.more; scaled = s.scaled; z = s.z } };
}

/// The numbers A to D of the formulas.
#[derive(Drop)]
struct Terms {
    a: Element,
    b: Element,
    c: Element,
    d: Element,
}

impl Model for Terms {
    ghost use Rattle.edwards_curves.specs.Points.{TermsValue};

    ghost Value = { TermsValue };

    ghost view = { λ v. record { a = v.a; b = v.b; c = v.c; d = v.d } };
}

/// The numbers E to H of the formulas.
#[derive(Drop)]
struct Factors {
    e: Element,
    f: Element,
    g: Element,
    h: Element,
}

impl Model for Factors {
    ghost use Rattle.edwards_curves.specs.Points.{FactorsValue};

    ghost Value = { FactorsValue };

    ghost view = { λ v. record { e = v.e; f = v.f; g = v.g; h = v.h } };
}

impl Factors {
    /// The point that the numbers make.
    #[tactic(auto, unfolding(crate::specs::Points::joined))]
    fn joined(&self) -> Point
        ensures { result ≡ joined self.now }
    {
        Point {
            x: self.e.multiply(&self.f),
            y: self.g.multiply(&self.h),
            z: self.f.multiply(&self.g),
            t: self.e.multiply(&self.h),
        }
    }
}

impl Terms {
    /// The numbers E to H of a sum.
    #[tactic(auto, unfolding(crate::specs::Points::sum_factors))]
    fn of_sum(&self) -> Factors
        ensures { result ≡ sum_factors self.now }
    {
        Factors {
            e: self.b.subtract(&self.a),
            f: self.d.subtract(&self.c),
            g: self.d.add(&self.c),
            h: self.b.add(&self.a),
        }
    }

    /// The numbers E to H of a double.
    #[tactic(auto, unfolding(crate::specs::Points::double_factors))]
    fn of_double(&self) -> Factors
        ensures { result ≡ double_factors self.now }
    {
        let g = self.a.subtract(&self.b);
        let h = self.a.add(&self.b);
        Factors {
            e: h.subtract(&self.d),
            f: self.c.add(&g),
            g,
            h,
        }
    }
}

impl Point {
    /// The point that changes no sum.
    fn neutral() -> Point
        ensures { result ≡ neutral }
    {
        Point {
            x: Element::small(0),
            y: Element::small(1),
            z: Element::small(1),
            t: Element::small(0),
        }
    }

    /// What is the same in each sum that the point is added to.
    #[tactic(auto, unfolding(crate::specs::Points::prepared))]
    fn prepared(&self) -> Summand
        ensures { result ≡ prepared self.now }
    {
        let d = Element::curve_d();
        Summand {
            less: self.y.subtract(&self.x),
            more: self.y.add(&self.x),
            scaled: d.add(&d).multiply(&self.t),
            z: self.z.copied(),
        }
    }

    /// The numbers A to D of a sum.
    #[tactic(auto, unfolding(crate::specs::Points::sum_terms))]
    fn sum_terms(&self, summand: &Summand) -> Terms
        ensures { result ≡ sum_terms self.now summand.now }
    {
        Terms {
            a: self.y.subtract(&self.x).multiply(&summand.less),
            b: self.y.add(&self.x).multiply(&summand.more),
            c: self.t.multiply(&summand.scaled),
            d: self.z.add(&self.z).times(&summand.z),
        }
    }

    /// The numbers A to D of a double.
    #[tactic(auto, unfolding(crate::specs::Points::double_terms))]
    fn double_terms(&self) -> Terms
        ensures { result ≡ double_terms self.now }
    {
        let square = self.z.multiply(&self.z);
        let both = self.x.add(&self.y);
        Terms {
            a: self.x.multiply(&self.x),
            b: self.y.multiply(&self.y),
            c: square.add(&square),
            d: both.multiply(&both),
        }
    }

    /// The sum with a point that is prepared.
    #[tactic(auto, unfolding(crate::specs::Points::prepared_sum))]
    fn add_prepared(&self, summand: &Summand) -> Point
        ensures { result ≡ prepared_sum self.now summand.now }
    {
        self.sum_terms(summand).of_sum().joined()
    }

    /// The sum of two points, whichever they are.
    pub fn add(&self, other: &Point) -> Point
        ensures { result ≡ point_sum self.now other.now }
    {
        self.add_prepared(&other.prepared())
    }

    /// The sum of a point and itself.
    #[tactic(auto, unfolding(crate::specs::Points::point_double))]
    fn double(&self) -> Point
        ensures { result ≡ point_double self.now }
    {
        self.double_terms().of_double().joined()
    }

    /// The double, and where the digit is 1 a point more.
    fn step(&self, summand: &Summand, one: bool) -> Point
        ensures more { one ≡ true → result ≡ prepared_sum (point_double self.now) summand.now }
        ensures double { one ≡ false → result ≡ point_double self.now }
    {
        let twice = self.double();
        if !one {
            return twice;
        }
        twice.add_prepared(summand)
    }

    /// The multiple by a number below 2^253, digit by digit from the highest.
    pub fn multiple(&self, number: &[u64]) -> Point
        requires { 4 ≤ length number.now }
        ensures { result ≡ multiple (value number.now) self.now }
    {
        let summand = self.prepared();
        let mut so_far = Point::neutral();
        for done in 0..253usize {
            so_far = so_far.step(&summand, digit(number, 252 - done));
        }
        so_far
    }

    /// Both are one point.
    #[tactic(auto, unfolding(crate::specs::Points::is_same_point))]
    pub fn is_same(&self, other: &Point) -> bool
        ensures { result ≡ is_same_point self.now other.now }
    {
        let x = self.x.multiply(&other.z);
        let y = self.y.multiply(&other.z);
        x.is_same(&other.x.multiply(&self.z)) && y.is_same(&other.y.multiply(&self.z))
    }
}
