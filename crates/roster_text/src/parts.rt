//! The sections of the four texts, each read as the grammar says.

ghost use Rattle.roster_text.specs.Reading.{Reads, assignment_at, bundle_at, contract_at, history_at, nurse_at, nurse_day_at, nurse_history_at, pair_at, request_at, requirement_at, scenario_at, shift_type_at, solution_at, succession_at, title_at, week_data_at, week_pairs_at};

use crate::fault::{Keyword, What};
use crate::parser::{MAX_COUNT, MAX_SMALL, Parse, Parser, Stop};
use roster_bundle::{
    Assignment, Bundle, Contract, History, Number, Nurse, NurseDay, NurseHistory, Pair, Request,
    Requirement, Scenario, ShiftType, Solution, Succession, Token, WeekData, WeekPairs,
};

impl Parse for Pair {
    ghost read = { pair_at };

    #[tactic(auto, unfolding(crate::specs::Reading::pair_at))]
    fn parse(parser: &mut Parser<'_>) -> Result<Pair, Stop> {
        parser.word(What::Open, b"(")?;
        let least = parser.small()?;
        parser.word(What::Comma, b",")?;
        let greatest = parser.small()?;
        parser.word(What::Close, b")")?;
        Ok(Pair { least, greatest })
    }
}

impl Parse for ShiftType {
    ghost read = { shift_type_at };

    #[tactic(auto, unfolding(crate::specs::Reading::shift_type_at))]
    fn parse(parser: &mut Parser<'_>) -> Result<ShiftType, Stop> {
        let name = parser.name()?;
        let run = Pair::parse(parser)?;
        Ok(ShiftType { name, run })
    }
}

impl Parse for Succession {
    ghost read = { succession_at };

    #[tactic(auto, unfolding(crate::specs::Reading::succession_at))]
    fn parse(parser: &mut Parser<'_>) -> Result<Succession, Stop> {
        let shift = parser.name()?;
        let forbidden = parser.names()?;
        Ok(Succession { shift, forbidden })
    }
}

impl Parse for Contract {
    ghost read = { contract_at };

    #[tactic(auto, unfolding(crate::specs::Reading::contract_at))]
    fn parse(parser: &mut Parser<'_>) -> Result<Contract, Stop> {
        let name = parser.name()?;
        let total = Pair::parse(parser)?;
        let working = Pair::parse(parser)?;
        let free = Pair::parse(parser)?;
        let weekends = parser.small()?;
        let complete_weekends = parser.value(1)?;
        Ok(Contract {
            name,
            total,
            working,
            free,
            weekends,
            complete_weekends,
        })
    }
}

impl Parse for Nurse {
    ghost read = { nurse_at };

    #[tactic(auto, unfolding(crate::specs::Reading::nurse_at))]
    fn parse(parser: &mut Parser<'_>) -> Result<Nurse, Stop> {
        let name = parser.name()?;
        let contract = parser.name()?;
        let skills = parser.names()?;
        Ok(Nurse {
            name,
            contract,
            skills,
        })
    }
}

/// The name of the scenario, and its number of weeks.
#[tactic(auto, unfolding(crate::specs::Reading::title_at))]
fn scenario_title(parser: &mut Parser<'_>) -> Result<(Token, Number), Stop>
    ensures { Reads result parser.new (title_at parser.old) }
{
    parser.key(Keyword::Scenario)?;
    parser.equals()?;
    let name = parser.name()?;
    parser.key(Keyword::Weeks)?;
    parser.equals()?;
    let weeks = parser.number(MAX_COUNT)?;
    Ok((name, weeks))
}

impl Parse for Scenario {
    ghost read = { scenario_at };

    #[tactic(auto, unfolding(crate::specs::Reading::scenario_at))]
    fn parse(parser: &mut Parser<'_>) -> Result<Scenario, Stop> {
        let (name, weeks) = scenario_title(parser)?;
        let skills = parser.section(Keyword::Skills)?;
        let shifts = parser.section(Keyword::ShiftTypes)?;
        parser.key(Keyword::Successions)?;
        let successions = parser.until(Keyword::Contracts)?;
        let contracts = parser.listed()?;
        let nurses = parser.section(Keyword::Nurses)?;
        Ok(Scenario {
            name,
            weeks,
            skills,
            shifts,
            successions,
            contracts,
            nurses,
        })
    }
}

impl Parse for NurseHistory {
    ghost read = { nurse_history_at };

    #[tactic(auto, unfolding(crate::specs::Reading::nurse_history_at))]
    fn parse(parser: &mut Parser<'_>) -> Result<NurseHistory, Stop> {
        Ok(NurseHistory {
            nurse: parser.name()?,
            assignments: parser.small()?,
            weekends: parser.small()?,
            last_shift: parser.name()?,
            shift_run: parser.small()?,
            working_run: parser.small()?,
            free_run: parser.small()?,
        })
    }
}

/// The history, with the given number of lines.
#[tactic(auto, unfolding(crate::specs::Reading::history_at))]
fn parse_history(parser: &mut Parser<'_>, lines: usize) -> Result<History, Stop>
    ensures { Reads result parser.new (history_at lines parser.old) }
{
    parser.key(Keyword::History)?;
    let week = parser.number(u32::from(MAX_SMALL))?;
    let scenario = parser.name()?;
    parser.key(Keyword::NurseHistory)?;
    let nurses = parser.times(lines)?;
    Ok(History {
        week,
        scenario,
        nurses,
    })
}

impl Parse for WeekPairs {
    ghost read = { week_pairs_at };

    #[tactic(auto, unfolding(crate::specs::Reading::week_pairs_at))]
    fn parse(parser: &mut Parser<'_>) -> Result<WeekPairs, Stop> {
        Ok(WeekPairs {
            monday: Pair::parse(parser)?,
            tuesday: Pair::parse(parser)?,
            wednesday: Pair::parse(parser)?,
            thursday: Pair::parse(parser)?,
            friday: Pair::parse(parser)?,
            saturday: Pair::parse(parser)?,
            sunday: Pair::parse(parser)?,
        })
    }
}

impl Parse for Requirement {
    ghost read = { requirement_at };

    #[tactic(auto, unfolding(crate::specs::Reading::requirement_at))]
    fn parse(parser: &mut Parser<'_>) -> Result<Requirement, Stop> {
        let shift = parser.name()?;
        let skill = parser.name()?;
        let days = WeekPairs::parse(parser)?;
        Ok(Requirement { shift, skill, days })
    }
}

impl Parse for Request {
    ghost read = { request_at };

    #[tactic(auto, unfolding(crate::specs::Reading::request_at))]
    fn parse(parser: &mut Parser<'_>) -> Result<Request, Stop> {
        let nurse = parser.name()?;
        let shift = parser.name()?;
        let day = parser.day()?;
        Ok(Request { nurse, shift, day })
    }
}

impl Parse for NurseDay {
    ghost read = { nurse_day_at };

    #[tactic(auto, unfolding(crate::specs::Reading::nurse_day_at))]
    fn parse(parser: &mut Parser<'_>) -> Result<NurseDay, Stop> {
        let nurse = parser.name()?;
        let day = parser.day()?;
        Ok(NurseDay { nurse, day })
    }
}

impl Parse for WeekData {
    ghost read = { week_data_at };

    #[tactic(auto, unfolding(crate::specs::Reading::week_data_at))]
    fn parse(parser: &mut Parser<'_>) -> Result<WeekData, Stop> {
        parser.key(Keyword::WeekData)?;
        let scenario = parser.name()?;
        parser.key(Keyword::Requirements)?;
        let requirements = parser.until(Keyword::ShiftOffRequests)?;
        let off_requests = parser.listed()?;
        let on_requests = parser.optional_section(Keyword::ShiftOnRequests)?;
        let absences = parser.optional_section(Keyword::Absences)?;
        let fixed_days = parser.optional_section(Keyword::Fixed)?;
        Ok(WeekData {
            scenario,
            requirements,
            off_requests,
            on_requests,
            absences,
            fixed_days,
        })
    }
}

impl Parse for Assignment {
    ghost read = { assignment_at };

    #[tactic(auto, unfolding(crate::specs::Reading::assignment_at))]
    fn parse(parser: &mut Parser<'_>) -> Result<Assignment, Stop> {
        let nurse = parser.name()?;
        let day = parser.day()?;
        let shift = parser.name()?;
        let skill = parser.name()?;
        Ok(Assignment {
            nurse,
            day,
            shift,
            skill,
        })
    }
}

impl Parse for Solution {
    ghost read = { solution_at };

    #[tactic(auto, unfolding(crate::specs::Reading::solution_at))]
    fn parse(parser: &mut Parser<'_>) -> Result<Solution, Stop> {
        parser.key(Keyword::Solution)?;
        let week = parser.number(u32::from(MAX_SMALL))?;
        let scenario = parser.name()?;
        let assignments = parser.section(Keyword::Assignments)?;
        Ok(Solution {
            week,
            scenario,
            assignments,
        })
    }
}

impl Parse for Bundle {
    ghost read = { bundle_at };

    /// The four texts, up to the last solution.
    #[tactic(auto, unfolding(crate::specs::Reading::bundle_at))]
    fn parse(parser: &mut Parser<'_>) -> Result<Bundle, Stop> {
        let scenario = Scenario::parse(parser)?;
        let history = parse_history(parser, scenario.nurses.items.len())?;
        let weeks = scenario.weeks.value as usize;
        let week_data = parser.times(weeks)?;
        let solutions = parser.times(weeks)?;
        Ok(Bundle {
            scenario,
            history,
            week_data,
            solutions,
        })
    }
}
