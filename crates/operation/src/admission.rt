// Questions 7 and 8.
//     transaction_exists            question 7, of the words of a plan
//     parameters_pass               question 8, of the words of a plan
//     unused_zero, row_in_range     question 8 of the parameters that are not used, and of a step
//     Operation::of                 the operation of a transaction with parameters, if they pass question 8
//     Operation::admit              the operation of a plan, if it passes questions 7 and 8
// `#[inline(always)]`: these are small and run in inner loops.
ghost use Rattle.std.specs.Prelude.{◌≡◌, ◌≤◌, IfSome, IfOk, is_some};
ghost use Rattle.verdict.specs.Verdict.{accepted, verdict_of};
ghost use Rattle.plan.specs.Plan.{transaction_at};
ghost use Rattle.plan.specs.Decode.{plan_of};
ghost use Rattle.plan.specs.Admission.{plan_verdict};
ghost use Rattle.plan.specs.Place.{StandsAt, transaction_from};
ghost use Rattle.plan.specs.Accepted.{the_plan};
ghost use Rattle.plan.specs.Step.{step_from};
ghost use Rattle.plan.specs.Transaction.{the_transaction};
ghost use Rattle.operation.specs.Operation.{operation};
ghost use Rattle.operation.specs.Admission.{transaction_exists, parameters_pass, unused_zero, row_in_range, operation_verdict};

use crate::operation::Operation;
use crate::value;
use plan::{Plan, Source, Step, Transaction};
use verdict::Refusal;
use word::fields;

// Question 7.
pub fn transaction_exists(plan: &[u32], transaction: u32) -> bool
    requires { plan_verdict plan.now ≡ accepted }
    ensures { result ≡ transaction_exists (plan_of plan.now) transaction }
{
    transaction < plan[0] / fields::TRANSACTIONS % 256
}

// Question 8 of the transaction that stands at this place.
pub fn parameters_pass(plan: &[u32], at: usize, params: [u32; 4]) -> bool
    requires { StandsAt plan.now at }
    ensures { result ≡ parameters_pass (transaction_from plan.now at) params }
{
    Operation::of(Transaction::standing(plan, at), params).is_some()
}

// The parameters from this number on are zero.
#[tactic(auto, unfolding(crate::specs::Admission::unused_zero))]
#[inline(always)]
fn unused_zero(count: u32, params: &[u32; 4]) -> bool
    requires { count ≤ 4 }
    ensures { result ≡ unused_zero count params.now }
{
    params[count as usize..].iter().all(|word| *word == 0)
}

// The row of the step, if it is a parameter, is at most 31.
#[tactic(auto, unfolding(crate::specs::Admission::row_in_range))]
#[inline(always)]
fn row_in_range(step: Step, params: &[u32; 4]) -> bool
    ensures { result ≡ row_in_range params.now (step_from step) }
{
    match step {
        Step::Cell(_, _, _, Source::Parameter(i)) => value::parameter(params, i) <= 31,
        Step::Cell(_, _, _, Source::Fixed(_)) => true,
        Step::Operand(_, _) => true,
        Step::Tell => true,
    }
}

impl<'a> Operation<'a> {
    // Question 8.
    #[tactic(auto, unfolding(crate::specs::Admission::parameters_pass))]
    #[inline(always)]
    pub fn of(transaction: Transaction<'a>, params: [u32; 4]) -> Option<Self>
        ensures passes { is_some result ≡ parameters_pass (the_transaction transaction.entry) params }
        ensures same { IfSome result (λ o. (the_transaction o.transaction ≡ the_transaction transaction.entry) × (o.params ≡ params)) }
    {
        if !unused_zero(transaction.parameters(), &params) {
            return None;
        }
        let rows = transaction.steps().all(|step| row_in_range(step, &params));
        if !rows {
            return None;
        }
        Some(Operation {
            transaction,
            params,
        })
    }

    // Questions 7 and 8.
    #[tactic(auto, unfolding(crate::specs::Admission::operation_verdict, crate::specs::Admission::transaction_exists))]
    #[inline(always)]
    pub fn admit(plan: &Plan<'a>, transaction: u32, params: [u32; 4]) -> Result<Self, Refusal>
        ensures verdict { verdict_of result ≡ operation_verdict (the_plan plan.now) (operation transaction params) }
        ensures same { IfOk result (λ o. (the_transaction o.transaction ≡ transaction_at (the_plan plan.now) transaction)
            × (o.params ≡ params)) }
    {
        let found = plan.transaction(transaction).ok_or(Refusal::NoTransaction)?;
        Operation::of(found, params).ok_or(Refusal::ParameterOutOfRange)
    }
}
