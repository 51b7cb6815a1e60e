//! What a node has for pods, made ready for the scores of many pods.
ghost use Rattle.std.specs.Prelude.{◌≡◌, ◌≤◌, ◌+◌, ◌-◌, ◌*◌, ◌/◌, ◌<◌, ◌^◌, IfSome};
ghost use Rattle.std.specs.Bool.{IsTrue};
ghost use Rattle.fit.specs.Fit.{fit_of};
ghost use Rattle.fit.specs.Score.{part_left, least_allocated_score, score_from};
ghost use Rattle.fit.specs.inside.Factor.{IsFactor};

use crate::room::fits;
use quant::{Request, Res};
use std::marker::Model;

/// What is allocatable of a node. Contracts see the amounts alone.
///
/// A score needs the hundredths of what is left. They are guessed by a product with a factor that
/// stands beside each amount, and the guess is tried, since that takes less time than a division.
/// It is never too low.
#[derive(Drop)]
pub struct Allocatable {
    amounts: Res,
    cpu: u64,
    mem: u64,
}

impl Model for Allocatable {
    ghost use Rattle.quant.specs.declared.amount.Res.{Res as Amounts};
    ghost use Rattle.fit.specs.inside.Factor.{IsFactor};

    ghost Value = { Amounts };

    ghost view = { λ a. a.amounts };

    ghost invariant = { λ a. IsFactor a.amounts.cpu.0 a.cpu × IsFactor a.amounts.mem.0 a.mem };
}

impl Allocatable {
    /// These amounts.
    pub fn of(amounts: Res) -> Self
        ensures { result ≡ amounts }
    {
        Allocatable {
            amounts,
            cpu: factor_of(amounts.cpu.0),
            mem: factor_of(amounts.mem.0),
        }
    }

    /// The amounts.
    #[inline]
    pub fn amounts(&self) -> Res
        ensures { result ≡ self.now }
    {
        self.amounts
    }

    /// How free a node would be with the pod on it, as `least_allocated` tells. Nothing is divided,
    /// but for a few amounts whose hundredths lie just below a whole number, and for memory of 64
    /// PiB and more.
    #[inline]
    #[tactic(auto, unfolding(crate::specs::Score::least_allocated_score))]
    pub fn least_allocated(&self, used: Res, request: Request) -> u8
        ensures value { result ≡ least_allocated_score self.now used request }
        ensures most { result ≤ 100 }
    {
        let cpu = part_left(self.amounts.cpu.0, self.cpu, used.cpu.0, request.cpu.0);
        let mem = part_left(self.amounts.mem.0, self.mem, used.mem.0, request.mem.0);
        (cpu + mem) / 2
    }

    /// How free a node would be with the pod on it, as `least_allocated` tells, where the pod fits,
    /// as `fits` tells, and that is at least so much. Where it is less, mostly no more than two
    /// products are made.
    #[inline]
    pub fn score_from(&self, least: u32, used: Res, request: Request) -> Option<u8>
        ensures value { result ≡ score_from least (fit_of self.now used request)
            (least_allocated_score self.now used request) }
        ensures most { IfSome result (λ score. score ≤ 100) }
    {
        if fits(self.amounts, used, request).is_err() {
            return None;
        }
        if self.at_most(used, request) < u64::from(least) {
            return None;
        }
        let score = self.least_allocated(used, request);
        if u32::from(score) < least {
            return None;
        }
        Some(score)
    }

    // At least how free a node would be with the pod on it.
    #[inline]
    #[tactic(auto, unfolding(crate::specs::Score::least_allocated_score))]
    fn at_most(&self, used: Res, request: Request) -> u64
        ensures { least_allocated_score self.now used request ≤ result }
    {
        let cpu = most_left(self.amounts.cpu.0, self.cpu, used.cpu.0, request.cpu.0);
        let mem = most_left(self.amounts.mem.0, self.mem, used.mem.0, request.mem.0);
        (cpu + mem) / 2
    }
}

// The hundredths of one, in units of 2 to the power of -57, rounded up.
fn factor_of(whole: u64) -> u64
    ensures { IsFactor whole result }
{
    match (100_u64 << 57).checked_div(whole) {
        Some(each) => each + 1,
        None => 0,
    }
}

// At least the hundredths of a resource that are left where the pod's part is used too.
#[inline]
fn most_left(allocatable: u64, factor: u64, used: u64, asked: u64) -> u64
    requires { IsFactor allocatable factor }
    ensures value { part_left allocatable (used + asked) ≤ result }
    ensures few { result ≤ 127 }
{
    match used.checked_add(asked) {
        Some(sum) if allocatable != 0 && sum <= allocatable => {
            most_hundredths(allocatable - sum, allocatable, factor)
        }
        _ => 0,
    }
}

// At least how many hundredths of the whole the part is.
#[inline]
fn most_hundredths(part: u64, whole: u64, factor: u64) -> u64
    requires some { 1 ≤ whole }
    requires part { part ≤ whole }
    requires factor { IsFactor whole factor }
    ensures value { part * 100 / whole ≤ result }
    ensures few { result ≤ 127 }
{
    if whole < 1 << 56 {
        part * factor >> 57
    } else {
        100
    }
}

// The hundredths of a resource that are left where the pod's part is used too.
#[inline]
fn part_left(allocatable: u64, factor: u64, used: u64, asked: u64) -> u8
    ensures value { result ≡ part_left allocatable (used + asked) }
    ensures most { result ≤ 100 }
{
    match used.checked_add(asked) {
        Some(sum) if allocatable != 0 && sum <= allocatable => {
            hundredths(allocatable - sum, allocatable, factor)
        }
        _ => 0,
    }
}

// How many hundredths of the whole the part is, rounded down.
#[inline]
fn hundredths(part: u64, whole: u64, factor: u64) -> u8
    requires some { 1 ≤ whole }
    requires part { part ≤ whole }
    ensures value { result ≡ part * 100 / whole }
    ensures most { result ≤ 100 }
{
    if whole < 1 << 56 {
        let guess = part.wrapping_mul(factor) >> 57;
        if is_quotient(part * 100, whole, guess) {
            return guess as u8;
        }
    }
    divided(part, whole)
}

// The same by a division.
#[cold]
fn divided(part: u64, whole: u64) -> u8
    requires some { 1 ≤ whole }
    requires part { part ≤ whole }
    ensures value { result ≡ part * 100 / whole }
    ensures most { result ≤ 100 }
{
    match part.checked_mul(100) {
        Some(product) => (product / whole) as u8,
        None => (u128::from(part) * 100 / u128::from(whole)) as u8,
    }
}

// Whether a number, rounded down, is this quotient.
#[inline]
fn is_quotient(product: u64, whole: u64, guess: u64) -> bool
    requires some { 1 ≤ whole }
    requires small { whole < 2 ^ 56 }
    requires few { guess < 2 ^ 7 }
    ensures { IsTrue result → product / whole ≡ guess }
{
    let least = guess * whole;
    least <= product && product - least < whole
}
