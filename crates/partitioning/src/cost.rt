// The cost of a plan, by the rows that two desks or more touch.
ghost use Rattle.std.specs.Prelude.{◌≡◌, ◌≤◌, length};
ghost use Rattle.plan.specs.Admission.{longest_plan};
ghost use Rattle.partitioning.specs.Shared.{rows_off_desk0, rows_if_many, shared_rows, word_shares, cost_from};
ghost use Rattle.partitioning.specs.Sets.{sets_of};

use crate::touched::{self, Touched};
use word::fields;

// All rows with two desks or more, none with one.
fn rows_if_many(desks: u32) -> u32
    ensures { result ≡ rows_if_many desks }
{
    if desks == 1 { 0 } else { 0xffff_ffff }
}

// The rows that are not desk 0's.
#[tactic(auto, unfolding(conflict::specs::Mask::mask_of))]
fn rows_off_desk_0(desks: u32) -> u32
    requires { (1 ≤ desks) × (desks ≤ 8) }
    ensures { result ≡ rows_off_desk0 desks }
{
    match desks {
        1 => 0,
        2 => 0xaaaa_aaaa,
        3 => 0xb6db_6db6,
        4 => 0xeeee_eeee,
        5 => 0xbdef_7bde,
        6 => 0xbefb_efbe,
        7 => 0xefdf_bf7e,
        _ => 0xfefe_fefe,
    }
}

// The rows of each table column that two desks or more touch.
#[tactic(auto, using(lists::proofs::Laws::tabling_done))]
pub(crate) fn shared_rows(touched: &Touched, desks: u32) -> [u32; 32]
    requires { (1 ≤ desks) × (desks ≤ 8) }
    ensures { result ≡ shared_rows desks (sets_of touched.now) }
{
    let many = rows_if_many(desks);
    let off = rows_off_desk_0(desks);
    let mut shared = [0; 32];
    for a in 0..32 {
        shared[a] = touched.every[a] & many | touched.own[a] & touched.desk_0[a] & off;
    }
    shared
}

// Whether the step in this word may write a row that is shared.
fn word_shares(shared: &[u32; 32], word: u32) -> bool
    ensures { result ≡ word_shares shared.now word }
{
    word / fields::KIND == 4 && shared[touched::table_column(word)] & touched::rows(word) != 0
}

// The sum of the weights of the transactions that may write a shared row. Each counts once: then its weight at hand is 0.
#[tactic(auto, unfolding(crate::specs::Shared::cost_from))]
pub(crate) fn plan_cost(plan: &[u32], shared: &[u32; 32]) -> u32
    requires { length plan.now ≤ longest_plan }
    ensures { result ≡ cost_from shared.now 0 0 plan.now }
{
    let mut cost = 0;
    let mut weight = 0;
    for word in plan {
        if word / fields::KIND == 2 {
            weight = word / fields::WEIGHT % 256;
        } else if word_shares(shared, *word) {
            cost += weight;
            weight = 0;
        }
    }
    cost
}
