//! The options, and the values that they were given.
ghost use Rattle.std.specs.Prelude.{◌≡◌, option_copied, is_none, option_map};
ghost use Rattle.conf_request.specs.Words.{option_named, first_value, with_value, nothing};
ghost use Rattle.conf_request.specs.Words.{has_none, budget_of, order_of, order_named};
ghost use Rattle.conf_request.specs.Views.{given};

use crate::numbers::number_within;
use command_limits::{MOST_BUDGET, USUAL_BUDGET};

/// An option.
#[derive(Clone, Copy)]
pub enum OptionName {
    /// How many decisions a search may take.
    Budget,
    /// The file that a log is written to.
    Log,
    /// The order by which branches are chosen.
    Order,
}

/// The name of an order in which a search splits.
#[derive(Clone, Copy, Debug)]
pub enum OrderName {
    /// `first`.
    First,
    /// `small`.
    Small,
    /// `former`.
    Former,
}

/// The option of this name.
pub fn option_named(name: &str) -> Option<OptionName>
    ensures { result ≡ option_named name.now }
{
    if name == "--budget" {
        Some(OptionName::Budget)
    } else if name == "--log" {
        Some(OptionName::Log)
    } else if name == "--order" {
        Some(OptionName::Order)
    } else {
        None
    }
}

/// The first value of an option, if it had none before.
fn first<'a>(before: Option<&'a str>, value: &'a str) -> Option<Option<&'a str>>
    ensures { option_map option_copied result
        ≡ first_value (option_copied before.entry) value.now }
{
    match before {
        Some(_) => None,
        None => Some(Some(value)),
    }
}

/// The values that options were given, as they stand.
#[derive(Clone, Copy)]
pub struct Given<'a> {
    /// The value of `--budget`.
    pub budget: Option<&'a str>,
    /// The value of `--log`.
    pub log: Option<&'a str>,
    /// The value of `--order`.
    pub order: Option<&'a str>,
}

impl<'a> Given<'a> {
    /// No values.
    pub fn nothing() -> Self
        ensures { given result ≡ nothing }
    {
        Given {
            budget: None,
            log: None,
            order: None,
        }
    }

    /// These values and one more, if its option has none yet.
    pub fn with(self, option: OptionName, value: &'a str) -> Option<Given<'a>>
        ensures { option_map given result ≡ with_value option value.now (given self.entry) }
    {
        let Given { budget, log, order } = self;
        match option {
            OptionName::Budget => Some(Given {
                budget: first(budget, value)?,
                log,
                order,
            }),
            OptionName::Log => Some(Given {
                budget,
                log: first(log, value)?,
                order,
            }),
            OptionName::Order => Some(Given {
                budget,
                log,
                order: first(order, value)?,
            }),
        }
    }

    /// Whether no option was given a value.
    pub fn is_none(&self) -> bool
        ensures { result ≡ has_none (given self.now) }
    {
        self.budget.is_none() && self.log.is_none() && self.order.is_none()
    }

    /// How many decisions a search may take, if the value says so; the usual number without one.
    pub fn budget(&self) -> Option<u32>
        ensures { result ≡ budget_of (given self.now).budget }
    {
        match self.budget {
            Some(word) => number_within(7, 0, MOST_BUDGET, word),
            None => Some(USUAL_BUDGET),
        }
    }

    /// The order that the value names, if it names one; this one without a value.
    pub fn order(&self, usual: OrderName) -> Option<OrderName>
        ensures { result ≡ order_of usual (given self.now).order }
    {
        match self.order {
            Some(word) => order_named(word),
            None => Some(usual),
        }
    }
}

/// The order of this name.
fn order_named(word: &str) -> Option<OrderName>
    ensures { result ≡ order_named word.now }
{
    if word == "first" {
        Some(OrderName::First)
    } else if word == "small" {
        Some(OrderName::Small)
    } else if word == "former" {
        Some(OrderName::Former)
    } else {
        None
    }
}
