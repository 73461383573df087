ghost use Rattle.table_sums.specs.Table.{Apportioned};
ghost use Rattle.fused.specs.Answer.{input, lent, Fused};
ghost use Rattle.census.specs.Plain.{flags};

use fused::calls::apportion_fused;
use fused::mode::Mode;
use lattice::Lattice;
use refusal::number;
use table_sums::apportion_table;

#[unsafe(no_mangle)]
pub extern "C" fn census_apportion_table(
    n: usize,
    r: usize,
    best: &[i32],
    unseen: &[u8],
    num: &mut [f64],
    den: &mut [f64],
) -> u8
    ensures { Apportioned n r best.now unseen.now num.old den.old result num.new den.new }
{
    number(apportion_table(Lattice { n, r }, best, unseen, num, den))
}

#[unsafe(no_mangle)]
pub extern "C" fn census_apportion_fused(
    n: usize,
    r: usize,
    add: &[u32],
    by_letter: &[u32],
    sheet: &[i32],
    leave: &[i32],
    leave_max: &[i32],
    unseen: &[u8],
    num: &mut [f64],
    den: &mut [f64],
    ways: &mut [f64],
    maxsheet: &mut [i32],
    zeta: bool,
    null_leave: bool,
    scatter: bool,
) -> u8
    ensures { Fused (input n r add.now by_letter.now sheet.now leave.now leave_max.now unseen.now
        (flags zeta null_leave scatter))
        (lent num.old den.old ways.old maxsheet.old) result
        (lent num.new den.new ways.new maxsheet.new) }
{
    let mode = Mode {
        zeta,
        null_leave,
        scatter,
    };
    number(apportion_fused(
        Lattice { n, r },
        add,
        by_letter,
        sheet,
        leave,
        leave_max,
        unseen,
        num,
        den,
        ways,
        maxsheet,
        mode,
    ))
}
