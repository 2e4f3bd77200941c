//! Cases at the edges of the three registers.
use crate::{COLUMN_LIMIT, Columns, Joined, LIMIT, Refusal, Register, Table, Turnover};
use std::test::Fail;

// 0 where the call was answered, else the number of the refusal.
// Stays: the new form is no plainer: a table says the numbers of docs/RULES.md, and 0 is none of
// them.
fn number(answer: Result<(), Refusal>) -> u8 {
    match answer {
        Ok(()) => 0,
        Err(refusal) => refusal.number(),
    }
}

fn columns(credits: u64, debits: u64) -> Columns {
    Columns { credits, debits }
}

#[test]
fn a_table_counts_each_row_within_the_limit(rt: HostRuntime) -> Result<(), Fail> {
    let rows = vec![in rt.alloc(); -5, 1_000_000_000_000_005, 7, 8, 9]?;
    let mut table = Table::new(rows, 2);
    let told = [
        table.tell(0, 0),
        table.tell(0, 1),
        table.tell(1, 1),
        table.tell(1, 2),
    ];
    assert_eq!(rt; told, [0, LIMIT, 8, 0]);
    let answers = [
        number(table.put(0, 0, 3)),
        number(table.put(0, 1, 1)),
        number(table.take(1, 0, 8)),
    ];
    assert_eq!(rt; answers, [0, 94, 93]);
    assert_eq!(rt;
        table.into_rows().as_slice(),
        [3, 1_000_000_000_000_005, 7, 8, 9].as_slice()
    );
    Ok(())
}

#[test]
fn a_table_shows_at_most_a_thousand_accounts(rt: HostRuntime) -> Result<(), Fail> {
    let table = Table::new(vec![in rt.alloc(); 4; 2002]?, 2);
    assert_eq!(rt; [table.kinds(), table.accounts()], [2, 1000]);
    assert_eq!(rt; [table.tell(1, 999), table.tell(1, 1000)], [4, 0]);
    let table = Table::new(table.into_rows(), 0);
    assert_eq!(rt; [table.kinds(), table.accounts()], [0, 0]);
    Ok(())
}

#[test]
fn a_move_asks_before_it_moves(rt: HostRuntime) -> Result<(), Fail> {
    let mut table = Table::new(vec![in rt.alloc(); 5, 1_000_000_000_000_000, 0]?, 1);
    let refused = [
        number(table.transfer(1, 0, 0, 1)),
        number(table.transfer(0, 0, 3, 9)),
        number(table.transfer(0, 0, 0, 6)),
        number(table.transfer(0, 0, 1, 1)),
    ];
    assert_eq!(rt; refused, [91, 92, 93, 94]);
    let answered = [
        number(table.transfer(0, 1, 1, LIMIT)),
        number(table.transfer(0, 0, 2, 2)),
    ];
    assert_eq!(rt; answered, [0, 0]);
    assert_eq!(rt;
        table.into_rows().as_slice(),
        [3, 1_000_000_000_000_000, 2].as_slice()
    );
    Ok(())
}

#[test]
fn turnover_is_brought_forward(rt: HostRuntime) -> Result<(), Fail> {
    let full = columns(COLUMN_LIMIT, COLUMN_LIMIT - 10);
    let rows = vec![in rt.alloc(); full, full, columns(COLUMN_LIMIT + 1, 1), columns(2, 9)]?;
    let mut turnover = Turnover::new(rows, 1);
    let answers = [
        number(turnover.take(0, 0, 4)),
        number(turnover.put(0, 1, 4)),
        number(turnover.put(0, 2, 1)),
        number(turnover.take(0, 2, 1)),
        number(turnover.put(0, 3, 6)),
    ];
    assert_eq!(rt; answers, [0, 0, 94, 0, 0]);
    let left = [
        columns(COLUMN_LIMIT, COLUMN_LIMIT - 6),
        columns(14, 0),
        columns(LIMIT, 1),
        columns(6, 0),
    ];
    assert_eq!(rt; turnover.into_rows().as_slice(), left.as_slice());
    Ok(())
}

#[test]
fn joined_registers_show_the_accounts_of_both(rt: HostRuntime) -> Result<(), Fail> {
    let table = Table::new(vec![in rt.alloc(); 1, 2, 3]?, 1);
    let turnover = Turnover::new(vec![in rt.alloc(); columns(9, 5); 4]?, 2);
    let mut joined = Joined::new(table, turnover);
    assert_eq!(rt; [joined.kinds(), joined.accounts()], [3, 2]);
    let answers = [
        number(joined.put(0, 2, 1)),
        number(joined.put(3, 0, 1)),
        number(joined.transfer(2, 0, 1, 4)),
    ];
    assert_eq!(rt; answers, [92, 91, 0]);
    let told = [joined.tell(0, 1), joined.tell(0, 2), joined.tell(2, 1)];
    assert_eq!(rt; told, [2, 0, 8]);
    let (table, turnover) = joined.into_parts();
    assert_eq!(rt; [table.tell(0, 2), turnover.tell(1, 0)], [3, 0]);
    Ok(())
}

#[test]
fn a_register_opens_with_nothing_in_it(rt: HostRuntime) -> Result<(), Fail> {
    let table = Table::zeroed(rt.alloc(), 4, 8)?;
    assert_eq!(rt; [table.kinds(), table.accounts()], [4, 8]);
    assert_eq!(rt; table.into_rows().as_slice(), [0; 32].as_slice());
    let mut turnover = Turnover::zeroed(rt.alloc(), 1, 2)?;
    assert_eq!(rt; [turnover.kinds(), turnover.accounts()], [1, 2]);
    let answers = [
        number(turnover.take(0, 1, 1)),
        number(turnover.put(0, 1, 3)),
    ];
    assert_eq!(rt; answers, [93, 0]);
    assert_eq!(rt;
        turnover.into_rows().as_slice(),
        [columns(0, 0), columns(3, 0)].as_slice()
    );
    Ok(())
}
