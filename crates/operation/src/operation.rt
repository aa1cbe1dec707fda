// An operation: a well-formed transaction, and four parameter words that pass question 8.
ghost use Rattle.std.specs.Prelude.{◌≡◌, true};
ghost use Rattle.plan.specs.Transaction.{the_transaction};
ghost use Rattle.operation.specs.Admission.{parameters_pass};

use plan::Transaction;

#[derive(Clone, Copy)]
pub struct Operation<'a> {
    pub transaction: Transaction<'a>,
    pub params: [u32; 4],
    ghost passes: { parameters_pass (the_transaction transaction) params ≡ true },
}
