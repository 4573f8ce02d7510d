//! Making the generated plan.
ghost use Rattle.std.specs.Prelude.{◌≡◌, ◌≤◌, ◌++◌, IfOk, OnOk};
ghost use Rattle.plan_lang.specs.PlanText.{IsPlan};
ghost use Rattle.plan_gen.specs.Generated.{load, generated_plan};

use crate::draws::Draws;
use crate::ending::put_last_part;
use crate::layout::generated_layout;
use crate::rounds::put_round_behind;
use crate::transactions::put_transaction;
use plan_lang::lines::{Lines, Plan};
use std::alloc::{AllocError, Global};

/// The plan that is generated from the seed, of so many transactions; it has a text, so `print_plan` prints it.
/// The program offers seeds below 2,147,483,648; each seed has a plan.
pub fn make_plan(alloc: Global, seed: u32, txns: u32) -> Result<Plan, AllocError>
    requires some { 1 ≤ txns }
    requires few { txns ≤ 2000 }
    ensures made { IfOk result (λ plan. plan ≡ generated_plan seed txns) }
    ensures spelled { IfOk result (λ plan. IsPlan plan) }
{
    let layout = generated_layout(alloc)?;
    let mut lines = Lines::new(alloc);
    put_load(alloc, seed, txns, &mut lines)?;
    put_last_part(alloc, txns + 1, txns / 4, &mut lines)?;
    Ok(Plan { layout, lines })
}

// The transactions, with the rounds behind them.
fn put_load(alloc: Global, seed: u32, txns: u32, lines: &mut Lines) -> Result<(), AllocError>
    requires { txns ≤ 2000 }
    ensures { OnOk result (lines.new ≡ lines.old ++ load txns 1 seed) }
{
    let mut draws = Draws { state: seed };
    for done in 0..txns {
        put_transaction(alloc, done + 1, &mut draws, lines)?;
        put_round_behind(alloc, done + 1, &mut draws, lines)?;
    }
    Ok(())
}
