ghost use Rattle.std.specs.Prelude.{◌≡◌, IfOk};

use ov_ids::OutOfMemory;
use ov_peer::Plan;
use std::alloc::Global;
use std::marker::Model;

/// A node's plan in a box, so that it stays in its place when what holds it is moved. Contracts see the plan.
#[derive(Drop)]
pub struct BoxedPlan {
    plan: Box<Plan>,
}

impl Model for BoxedPlan {
    ghost use Rattle.ov_peer.specs.declared.plan.Plan.{Plan};

    ghost Value = { Plan };

    ghost view = { λ a. a.plan.value };
}

impl BoxedPlan {
    /// Puts a plan into a box, or is out of memory (99).
    pub(crate) fn new(alloc: Global, plan: Plan) -> Result<BoxedPlan, OutOfMemory>
        ensures { IfOk result (λ p. p ≡ plan) }
    {
        Ok(BoxedPlan {
            plan: Box::new(alloc, plan)?,
        })
    }

    /// The plan.
    pub(crate) fn as_plan(&self) -> &Plan
        ensures { result.now ≡ self.now }
    {
        &self.plan
    }

    /// The plan in its box.
    pub(crate) fn into_box(self) -> Box<Plan>
        ensures { result.value ≡ self }
    {
        self.plan
    }
}
