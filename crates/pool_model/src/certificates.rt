//! Certificates and answers. A certificate is a list of stages, each with a weight for each volunteer and a cap on a panel's weight. An
//! answer is a lottery with its certificate.

ghost use Rattle.std.specs.Prelude.{◌≡◌, ◌≤◌, ◌+◌, ◌+ℤ◌, ◌-◌, ◌^◌, ◌++◌, ◌∷◌, [], sum_by, unsigned_abs, IfOk, OnOk, OnErr};
ghost use Rattle.define_pools.specs.Certificate.{panel_weight as weight_of_panel, weight_of as weight_of_one};

use crate::lotteries::Lottery;
use crate::panels::Panel;
use std::alloc::{AllocError, Global};
use std::marker::Model;

/// A weight for each volunteer, which may be negative, and a cap on a panel's weight.
#[derive(Debug, Drop)]
pub struct Stage {
    weights: Vec<i128>,
    cap: i128,
}

impl Model for Stage {
    ghost use Rattle.define_pools.specs.Certificate.{Stage as Seen};

    ghost Value = { Seen };

    ghost view = { λ s. record { weights = s.weights.items; cap = s.cap } };
}

impl Stage {
    /// Returns a stage of these weights, one for each volunteer, and this cap.
    pub fn new(weights: Vec<i128>, cap: i128) -> Stage
        ensures { result ≡ record { weights = weights.items; cap = cap } }
    {
        Stage { weights, cap }
    }

    /// Returns the weight of each volunteer.
    pub fn weights(&self) -> &[i128]
        ensures { result.now ≡ self.now.weights }
    {
        &self.weights
    }

    /// Returns the cap on a panel's weight.
    pub fn cap(&self) -> i128
        ensures { result ≡ self.now.cap }
    {
        self.cap
    }

    /// Returns an equal stage.
    pub fn copy(&self) -> Result<Stage, AllocError>
        ensures { IfOk result (λ copied. copied ≡ self.now) }
    {
        Ok(Stage {
            weights: self.weights.clone()?,
            cap: self.cap,
        })
    }
}

/// A list of stages.
#[derive(Debug, Drop)]
pub struct Certificate {
    stages: Vec<Stage>,
}

impl Model for Certificate {
    ghost use Rattle.std.specs.Prelude.{List};
    ghost use Rattle.define_pools.specs.Certificate.{Stage as Seen};

    ghost Value = { List Seen };

    ghost view = { λ c. c.stages.items };
}

impl Certificate {
    /// Returns the certificate of these stages.
    pub fn new(stages: Vec<Stage>) -> Certificate
        ensures { result ≡ stages.items }
    {
        Certificate { stages }
    }

    /// Appends a stage.
    pub fn add_stage(&mut self, stage: Stage) -> Result<(), AllocError>
        ensures ok { OnOk result (self.new ≡ self.old ++ stage ∷ []) }
        ensures err { OnErr result (self.new ≡ self.old) }
    {
        self.stages.push(stage)?;
        Ok(())
    }

    /// Returns the stages, in order.
    pub fn stages(&self) -> &[Stage]
        ensures { result.now ≡ self.now }
    {
        &self.stages
    }

    /// Returns an equal certificate.
    pub fn copy(&self) -> Result<Certificate, AllocError>
        ensures { IfOk result (λ copied. copied ≡ self.now) }
    {
        let stages = copied_stages(*self.stages.allocator(), &self.stages)?;
        Ok(Certificate { stages })
    }
}

fn copied_stages(alloc: Global, stages: &[Stage]) -> Result<Vec<Stage>, AllocError>
    ensures { IfOk result (λ copies. copies.items ≡ stages.now) }
{
    let mut copies = Vec::new(alloc);
    for stage in stages {
        copies.push(stage.copy()?)?;
    }
    Ok(copies)
}

/// A lottery, and a certificate that it is leximin greatest. A check finds out whether the certificate holds.
#[derive(Debug, Drop)]
pub struct Answer {
    lottery: Lottery,
    certificate: Certificate,
}

impl Model for Answer {
    ghost use Rattle.define_pools.specs.Certificate.{Answer as Seen};

    ghost Value = { Seen };

    ghost view = { λ a. record { lottery = a.lottery; stages = a.certificate } };
}

impl Answer {
    /// Returns the answer of `lottery` and `certificate`.
    pub fn new(lottery: Lottery, certificate: Certificate) -> Answer
        ensures { result ≡ record { lottery = lottery; stages = certificate } }
    {
        Answer {
            lottery,
            certificate,
        }
    }

    /// Returns the lottery.
    pub fn lottery(&self) -> &Lottery
        ensures { result.now ≡ self.now.lottery }
    {
        &self.lottery
    }

    /// Returns the certificate.
    pub fn certificate(&self) -> &Certificate
        ensures { result.now ≡ self.now.stages }
    {
        &self.certificate
    }

    /// Returns an equal answer.
    pub fn copy(&self) -> Result<Answer, AllocError>
        ensures { IfOk result (λ copied. copied ≡ self.now) }
    {
        Ok(Answer {
            lottery: self.lottery.copy()?,
            certificate: self.certificate.copy()?,
        })
    }
}

/// Returns the panel's weight in the stage: the sum of its members' weights. A member without a weight in the stage counts 0. The
/// absolute values of the stage's cap and weights sum to at most 2^127 - 1, so every sum fits 128 bits.
pub fn panel_weight(panel: &Panel, stage: &Stage) -> i128
    requires { unsigned_abs stage.now.cap + sum_by unsigned_abs stage.now.weights ≤ 2 ^ 127 - 1 }
    ensures { result ≡ weight_of_panel stage.now panel.now }
{
    let mut sum = 0;
    for i in panel.members() {
        sum = with_weight(sum, weight_of(stage, *i));
    }
    sum
}

/// Returns `sum + weight`, whose absolute value is at most 2^127 - 1.
fn with_weight(sum: i128, weight: i128) -> i128
    requires { unsigned_abs (sum +ℤ weight) ≤ 2 ^ 127 - 1 }
    ensures { result ≡ sum +ℤ weight }
{
    sum + weight
}

/// Returns the weight of volunteer `i`, or 0 if the stage has none.
fn weight_of(stage: &Stage, i: usize) -> i128
    ensures { result ≡ weight_of_one stage.now i }
{
    stage.weights.get(i).copied().unwrap_or(0)
}
