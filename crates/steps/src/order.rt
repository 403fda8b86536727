ghost use Rattle.steps.specs.Orders.{IsOrderOf};

use rules::refusal::Refusal;
use rules::{Box, Step, Train, Window};

// What a step in form asks for.
#[derive(Clone, Copy, Debug, PartialEq, Eq)]
pub enum Order {
    Report { train: Train, bounds: Box },
    Withdraw(Train),
    Clean,
    Inspect,
    Open { board: u32, window: Window },
    Close(u32),
}

impl TryFrom<Step> for Order {
    type Error = Refusal;

    ghost try_from_gives = { IsOrderOf };

    // Only a kind that is known, and no word but those that it names.
    #[tactic(auto, using(std::proofs::lemmas::Bool::Decides::nat_tests), unfolding(rules::specs::Steps::in_form, rules::specs::Steps::four_zero, rules::specs::Lists::all_of, rules::specs::Lists::one_of))]
    fn try_from(step: Step) -> Result<Order, Refusal> {
        let Step {
            kind,
            a,
            x0,
            y0,
            x1,
            y1,
        } = step;
        let four_zero = x0 == 0 && y0 == 0 && x1 == 0 && y1 == 0;
        match kind {
            1 => Ok(Order::Report {
                train: Train(a),
                bounds: Box { x0, y0, x1, y1 },
            }),
            2 if four_zero => Ok(Order::Withdraw(Train(a))),
            3 if a == 0 && four_zero => Ok(Order::Clean),
            4 if a == 0 && four_zero => Ok(Order::Inspect),
            5 => Ok(Order::Open {
                board: a,
                window: Window { x0, y0, x1, y1 },
            }),
            6 if four_zero => Ok(Order::Close(a)),
            _ => Err(Refusal::OutOfForm),
        }
    }
}
