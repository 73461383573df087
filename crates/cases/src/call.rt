//! The numbers of the records of a list, and what each is of.
ghost use Rattle.std.specs.Prelude.{◌≤◌, ◌↔◌, IsTrue};
ghost use Rattle.cases.specs.Call.{Decodes};

use std::error::Error;
use std::fmt;

/// What a record of a list is of: the first five set what later ones use, and each but `Pool`,
/// `Sheet`, `Leave` and `Best`, which give a list, names the call that it is compared with.
#[derive(Clone, Copy, Debug, PartialEq, Eq, Hash)]
pub enum Call {
    Sizes = 1,
    Pool = 2,
    Sheet = 3,
    Leave = 4,
    Best = 5,
    SizeStart = 10,
    Rank = 11,
    RankSparse = 12,
    RankBytes = 13,
    UnrankInto = 14,
    PascalRows = 15,
    FillAdd = 16,
    FillByLetter = 17,
    Letter = 18,
    NaiveBestEquity = 20,
    BestEquityOf = 21,
    BestEquityTable = 22,
    BestKeepOf = 23,
    SubsetMaxTransform = 24,
    ApportionTable = 30,
    ApportionFused = 31,
    DynamicLeaveValue = 32,
    RecordBlankVariants = 40,
}

/// A number that no call of the format has.
#[derive(Clone, Copy, Debug, PartialEq, Eq, Hash)]
pub struct UnknownCall(pub u64);

impl Call {
    ghost use Rattle.cases.specs.Call.{number_of};

    /// All calls, in the order of their numbers.
    pub const ALL: [Call; 23] = [
        Call::Sizes,
        Call::Pool,
        Call::Sheet,
        Call::Leave,
        Call::Best,
        Call::SizeStart,
        Call::Rank,
        Call::RankSparse,
        Call::RankBytes,
        Call::UnrankInto,
        Call::PascalRows,
        Call::FillAdd,
        Call::FillByLetter,
        Call::Letter,
        Call::NaiveBestEquity,
        Call::BestEquityOf,
        Call::BestEquityTable,
        Call::BestKeepOf,
        Call::SubsetMaxTransform,
        Call::ApportionTable,
        Call::ApportionFused,
        Call::DynamicLeaveValue,
        Call::RecordBlankVariants,
    ];

    /// Whether it gives a list that later records use, and has no answer of its own.
    pub fn is_list(self) -> bool
        ensures { IsTrue result ↔ ((2 ≤ number_of self) × (number_of self ≤ 5)) }
    {
        matches!(self, Call::Pool | Call::Sheet | Call::Leave | Call::Best)
    }
}

impl TryFrom<u64> for Call {
    type Error = UnknownCall;

    ghost try_from_gives = { Decodes };

    // By a match (P): of what `find` over `ALL` answers the check proves not that it is the call.
    fn try_from(number: u64) -> Result<Self, UnknownCall> {
        match number {
            1 => Ok(Call::Sizes),
            2 => Ok(Call::Pool),
            3 => Ok(Call::Sheet),
            4 => Ok(Call::Leave),
            5 => Ok(Call::Best),
            10 => Ok(Call::SizeStart),
            11 => Ok(Call::Rank),
            12 => Ok(Call::RankSparse),
            13 => Ok(Call::RankBytes),
            14 => Ok(Call::UnrankInto),
            15 => Ok(Call::PascalRows),
            16 => Ok(Call::FillAdd),
            17 => Ok(Call::FillByLetter),
            18 => Ok(Call::Letter),
            20 => Ok(Call::NaiveBestEquity),
            21 => Ok(Call::BestEquityOf),
            22 => Ok(Call::BestEquityTable),
            23 => Ok(Call::BestKeepOf),
            24 => Ok(Call::SubsetMaxTransform),
            30 => Ok(Call::ApportionTable),
            31 => Ok(Call::ApportionFused),
            32 => Ok(Call::DynamicLeaveValue),
            40 => Ok(Call::RecordBlankVariants),
            _ => Err(UnknownCall(number)),
        }
    }
}

impl fmt::Display for Call {
    fn fmt<W: fmt::Write>(&self, f: &mut fmt::Formatter<W>) -> fmt::Result {
        f.write_str(match self {
            Call::Sizes => "len, full_rack_start",
            Call::Pool => "pool",
            Call::Sheet => "sheet",
            Call::Leave => "leave",
            Call::Best => "best",
            Call::SizeStart => "size_start",
            Call::Rank => "rank",
            Call::RankSparse => "rank_sparse",
            Call::RankBytes => "rank_bytes",
            Call::UnrankInto => "unrank_into",
            Call::PascalRows => "pascal_rows",
            Call::FillAdd => "fill_add",
            Call::FillByLetter => "fill_by_letter",
            Call::Letter => "letter",
            Call::NaiveBestEquity => "naive_best_equity",
            Call::BestEquityOf => "best_equity_of",
            Call::BestEquityTable => "best_equity_table",
            Call::BestKeepOf => "best_keep_of",
            Call::SubsetMaxTransform => "subset_max_transform",
            Call::ApportionTable => "apportion_table",
            Call::ApportionFused => "apportion_fused",
            Call::DynamicLeaveValue => "dynamic_leave_value",
            Call::RecordBlankVariants => "record_blank_variants",
        })
    }
}

impl fmt::Display for UnknownCall {
    fn fmt<W: fmt::Write>(&self, f: &mut fmt::Formatter<W>) -> fmt::Result {
        write!(f, "no call of a list has the number {}", self.0)
    }
}

impl Error for UnknownCall {}
