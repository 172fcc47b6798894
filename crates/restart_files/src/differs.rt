// Whether a run that is resumed goes by the settings of the run that was kept.
ghost use Rattle.std.specs.Prelude.{◌≡◌, IfErr, OnOk, Some, None};
ghost use Rattle.restart_files.specs.Differences.{differing, first_difference, rules, softenings};

use nbody_model::Setup;
use param_file::ParamName;
use thiserror::Error;

/// The first row of the table of parameters in which two setups differ.
#[derive(Clone, Copy, Debug, PartialEq, Eq, Error)]
#[error("differs")]
pub struct Differs {
    pub name: ParamName,
}

// Whether a row has the same number in both.
fn same(name: ParamName, kept: u64, now: u64) -> Result<(), Differs>
    ensures ok { OnOk result (kept ≡ now) }
    ensures differs { IfErr result (λ e. (kept ≡ now → ⊥) × (e.name ≡ name)) }
{
    if kept == now {
        return Ok(());
    }
    Err(Differs { name })
}

// The settings that aren't softening lengths.
fn same_rules(kept: &Setup, now: &Setup) -> Result<(), Differs>
    ensures ok { OnOk result (record kept.now { soft = now.now.soft } ≡ now.now) }
    ensures none { OnOk result (differing rules kept.now now.now ≡ None) }
    ensures err { IfErr result (λ e. differing rules kept.now now.now ≡ Some e.name) }
{
    same(ParamName::TimeMax, kept.time_max, now.time_max)?;
    same(
        ParamName::LowBin,
        u64::from(kept.low_bin),
        u64::from(now.low_bin),
    )?;
    same(
        ParamName::TopBin,
        u64::from(kept.top_bin),
        u64::from(now.top_bin),
    )?;
    same(
        ParamName::ErrTolTheta,
        u64::from(kept.theta),
        u64::from(now.theta),
    )?;
    same(
        ParamName::ErrTolIntAccuracy,
        u64::from(kept.eta),
        u64::from(now.eta),
    )?;
    same(
        ParamName::GravityConstantInternal,
        kept.gravity,
        now.gravity,
    )?;
    same(
        ParamName::VelocityShift,
        u64::from(kept.velocity_shift),
        u64::from(now.velocity_shift),
    )
}

// The softening lengths.
fn same_softenings(kept: &Setup, now: &Setup) -> Result<(), Differs>
    ensures ok { OnOk result (kept.now.soft ≡ now.now.soft) }
    ensures none { OnOk result (differing softenings kept.now now.now ≡ None) }
    ensures err { IfErr result (λ e. differing softenings kept.now now.now ≡ Some e.name) }
{
    same(
        ParamName::SofteningType1,
        u64::from(kept.soft[1]),
        u64::from(now.soft[1]),
    )?;
    same(
        ParamName::SofteningType2,
        u64::from(kept.soft[2]),
        u64::from(now.soft[2]),
    )?;
    same(
        ParamName::SofteningType3,
        u64::from(kept.soft[3]),
        u64::from(now.soft[3]),
    )?;
    same(
        ParamName::SofteningType4,
        u64::from(kept.soft[4]),
        u64::from(now.soft[4]),
    )?;
    same(
        ParamName::SofteningType5,
        u64::from(kept.soft[5]),
        u64::from(now.soft[5]),
    )
}

/// Whether two setups are the same, or the first row in which they differ. It takes no memory.
pub fn same_params(kept: &Setup, now: &Setup) -> Result<(), Differs>
    ensures ok { OnOk result (kept.now ≡ now.now) }
    ensures none { OnOk result (first_difference kept.now now.now ≡ None) }
    ensures err { IfErr result (λ e. first_difference kept.now now.now ≡ Some e.name) }
{
    match same_rules(kept, now) {
        Ok(()) => same_softenings(kept, now),
        Err(differs) => Err(differs),
    }
}
