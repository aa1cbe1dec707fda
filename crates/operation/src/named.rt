// The cells that the steps of an operation read, or those that they write: the steps that are left.
ghost use Rattle.plan.specs.Step.{access_from};
ghost use Rattle.plan.specs.Transaction.{the_steps};
ghost use Rattle.operation.specs.Operation.{cells_named};
ghost use Rattle.operation.specs.Named.{AllInStore};

use plan::{Access, Steps};

#[derive(Clone, Copy)]
pub struct Cells<'a> {
    pub access: Access,
    pub params: [u32; 4],
    pub steps: Steps<'a>,
    ghost in_store: { AllInStore (cells_named (access_from access) params (the_steps steps)) },
}
