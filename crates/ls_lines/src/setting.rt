// Commands that set what an assessment goes by.
ghost use Rattle.std.specs.Prelude.{◌≡◌, All, IfOk, map};
ghost use Rattle.std.specs.Str.{IsAscii};
ghost use Rattle.ls_lines.specs.Forms.{setting_parts, setting_command, setting_spelled_as};
ghost use Rattle.ls_lines.specs.Operands.{filling};

use crate::cut::Cut;
use crate::operand::Operand::{Number, One};
use crate::operand::{Operands, spell, spell_four, spell_three, spell_two};
use crate::part::{ITEM, NUMBER};
use crate::{Keyword, Part, Word};
use std::alloc::AllocError;

/// A command that sets the odds, the ratios or the limits of an assessment.
#[derive(Drop)]
pub enum SettingCommand {
    /// The odds of each item: the ratios `right` to 1 and `wrong` to 1.
    OddsAll {
        right: u64,
        wrong: u64,
    },
    /// The odds of one item.
    OddsItem {
        item: Word,
        right: u64,
        wrong: u64,
    },
    /// The ratios of each item: `right_a` to `right_b` for a right reply, and `wrong_a` to
    /// `wrong_b` for a wrong one.
    RatioAll {
        right_a: u64,
        right_b: u64,
        wrong_a: u64,
        wrong_b: u64,
    },
    /// The ratios of one item.
    RatioItem {
        item: Word,
        right_a: u64,
        right_b: u64,
        wrong_a: u64,
        wrong_b: u64,
    },
    /// The most replies, and the share of the total, in hundredths, that ends an assessment.
    Limits {
        budget: u64,
        share: u64,
    },
}

/// A form of a command that sets the odds, the ratios or the limits of an assessment.
#[derive(Clone, Copy)]
pub enum SettingForm {
    OddsAll,
    OddsItem,
    RatioAll,
    RatioItem,
    Limits,
}

impl SettingForm {
    // The parts of the form's lines.
    pub(crate) fn parts(self) -> &'static [Part]
        ensures { result.now ≡ setting_parts self }
    {
        match self {
            Self::OddsAll => &[Part::Fixed(Keyword::Odds), NUMBER, NUMBER],
            Self::OddsItem => &[Part::Fixed(Keyword::Odds), ITEM, NUMBER, NUMBER],
            Self::RatioAll => &[Part::Fixed(Keyword::Ratio), NUMBER, NUMBER, NUMBER, NUMBER],
            Self::RatioItem => &[
                Part::Fixed(Keyword::Ratio),
                ITEM,
                NUMBER,
                NUMBER,
                NUMBER,
                NUMBER,
            ],
            Self::Limits => &[Part::Fixed(Keyword::Limits), NUMBER, NUMBER],
        }
    }

    // The command with the words at the parts.
    pub(crate) fn command(self, cut: &Cut) -> Result<SettingCommand, AllocError>
        requires { All (λ ws. All IsAscii ws) cut.now }
        ensures { IfOk result (λ c. c ≡ setting_command self cut.now) }
    {
        Ok(match self {
            Self::OddsAll => SettingCommand::OddsAll {
                right: u64::from(cut.number(1)),
                wrong: u64::from(cut.number(2)),
            },
            Self::OddsItem => SettingCommand::OddsItem {
                item: cut.one(1)?,
                right: u64::from(cut.number(2)),
                wrong: u64::from(cut.number(3)),
            },
            Self::RatioAll => SettingCommand::RatioAll {
                right_a: u64::from(cut.number(1)),
                right_b: u64::from(cut.number(2)),
                wrong_a: u64::from(cut.number(3)),
                wrong_b: u64::from(cut.number(4)),
            },
            Self::RatioItem => SettingCommand::RatioItem {
                item: cut.one(1)?,
                right_a: u64::from(cut.number(2)),
                right_b: u64::from(cut.number(3)),
                wrong_a: u64::from(cut.number(4)),
                wrong_b: u64::from(cut.number(5)),
            },
            Self::Limits => SettingCommand::Limits {
                budget: u64::from(cut.number(1)),
                share: u64::from(cut.number(2)),
            },
        })
    }
}

impl SettingCommand {
    // The form of the command, and what stands at those of its parts that are no fixed words.
    pub(crate) fn spelled_as(&self) -> (SettingForm, Operands<'_>)
        ensures { (result.0, map filling result.1.items) ≡ setting_spelled_as self.now }
    {
        match self {
            Self::OddsAll { right, wrong } => spell_two(
                SettingForm::OddsAll,
                Number(*right),
                Number(*wrong),
            ),
            Self::OddsItem { item, right, wrong } => spell_three(
                SettingForm::OddsItem,
                One(item),
                Number(*right),
                Number(*wrong),
            ),
            Self::RatioAll {
                right_a,
                right_b,
                wrong_a,
                wrong_b,
            } => spell_four(
                SettingForm::RatioAll,
                Number(*right_a),
                Number(*right_b),
                Number(*wrong_a),
                Number(*wrong_b),
            ),
            Self::RatioItem {
                item,
                right_a,
                right_b,
                wrong_a,
                wrong_b,
            } => spell(
                SettingForm::RatioItem,
                &[
                    One(item),
                    Number(*right_a),
                    Number(*right_b),
                    Number(*wrong_a),
                    Number(*wrong_b),
                ],
            ),
            Self::Limits { budget, share } => spell_two(
                SettingForm::Limits,
                Number(*budget),
                Number(*share),
            ),
        }
    }
}
