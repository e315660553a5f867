//! Verdicts as values: a certificate or a proof is valid, or refused for a reason.

ghost use Rattle.std.specs.Prelude.{◌≡◌, option_map, IfOk};
ghost use Rattle.define_checks.specs.Reasons.{Refused, Valid};
ghost use Rattle.check_reasons.specs.Sayings.{holds, verdict_of};

use std::alloc::{AllocError, Global};
use std::marker::Model;

/// Why a certificate or a proof is refused.
#[derive(Debug, Drop)]
pub struct Refusal {
    stage: usize,
    reason: u8,
    who: Vec<usize>,
}

impl Model for Refusal {
    ghost use Rattle.define_checks.specs.Reasons.{Refusal as Seen};

    ghost Value = { Seen };

    ghost view = { λ r. record { stage = r.stage; reason = r.reason; who = r.who.items } };
}

impl Refusal {
    /// Returns the number of the stage, from 1, or 0 for the lottery itself and for a proof that there is no quota panel.
    pub fn stage(&self) -> usize
        ensures { result ≡ self.now.stage }
    {
        self.stage
    }

    /// Returns the number of the reason: of a certificate from 1 to 10, of a proof from 1 to 7 or from 9 to 13.
    pub fn reason(&self) -> u8
        ensures { result ≡ self.now.reason }
    {
        self.reason
    }

    /// Returns the numbers of the volunteers who show the reason. For the reasons 11 and 12, which only a proof has, returns instead the
    /// number of the faulty line in the proof's text.
    pub fn who(&self) -> &[usize]
        ensures { result.now ≡ self.now.who }
    {
        &self.who
    }
}

/// The outcome of a check of a certificate or of a proof: valid, or why it is refused.
#[derive(Debug, Drop)]
pub struct Verdict {
    refusal: Option<Refusal>,
}

impl Model for Verdict {
    ghost use Rattle.define_checks.specs.Reasons.{Verdict as Seen};
    ghost use Rattle.check_reasons.specs.Sayings.{verdict_of};

    ghost Value = { Seen };

    ghost view = { λ v. verdict_of v.refusal };
}

impl Verdict {
    /// Returns the verdict that the certificate or the proof is valid.
    pub fn valid() -> Verdict
        ensures { result ≡ Valid }
    {
        Verdict { refusal: None }
    }

    /// Returns the verdict that the certificate or the proof is refused. `stage`, `reason` and `who` are what the calls of these names of
    /// `Refusal` return.
    pub fn refused(
        alloc: Global,
        stage: usize,
        reason: u8,
        who: &[usize],
    ) -> Result<Verdict, AllocError>
        ensures { IfOk result (λ verdict. verdict ≡ Refused (record { stage = stage; reason = reason; who = who.now })) }
    {
        let who = Vec::from_slice(alloc, who)?;
        let refusal = Some(Refusal { stage, reason, who });
        Ok(Verdict { refusal })
    }

    /// True if the certificate or the proof is valid.
    pub fn is_valid(&self) -> bool
        ensures { result ≡ holds self.now }
    {
        self.refusal.is_none()
    }

    /// Returns why the certificate or the proof is refused, or None if it is valid.
    pub fn refusal(&self) -> Option<&Refusal>
        ensures { self.now ≡ verdict_of (option_map (λ refusal. refusal.now) result) }
    {
        self.refusal.as_ref()
    }
}
