// A context in a file that a person writes, a line for each list:
//
//     parameters CL V KA
//     iiv CL V
//     template cl=CL v=V ka=KA
//     covariates WT:continuous SEX:categorical
//     columns WT SEX
//
// From it come the block of name bytes and the run of numbers that Resolve takes. What is no name, and what is too much, is left to Resolve.
use crate::context_names::LISTS;
pub use crate::entries::{Taken, Taking};
use crate::rows::{self, Row};

// What can be wrong with a context file.
#[derive(Clone, Copy)]
pub enum Cause {
    UnknownRow,
    SecondRow,
    NoVariable,
    NoKind,
    UnknownKind,
    TooMuch,
}

// What is wrong with a context file, and where.
#[derive(Clone, Copy)]
pub struct Malformed {
    pub cause: Cause,
    pub place: usize,
}

impl Cause {
    pub fn at(self, place: usize) -> Malformed {
        Malformed { cause: self, place }
    }
}

// Whether a row may stand where it does.
fn check_row(file: &[u8], row: Row) -> Result<(), Malformed> {
    let place = row.word.from;
    let Some(list) = row.list else {
        return Err(Cause::UnknownRow.at(place));
    };
    if let Some(first) = rows::find_row(file, list)
        && first.word.from < place
    {
        return Err(Cause::SecondRow.at(place));
    }
    Ok(())
}

// Whether all rows may stand where they do; or the first that may not.
fn check_rows(file: &[u8]) -> Result<(), Malformed> {
    for line in rows::lines_of(file) {
        if let Some(row) = line {
            check_row(file, row)?;
        }
    }
    Ok(())
}

// The context of a file, for which there are a block and a run; or what is wrong with it.
pub fn read_context<'a>(
    file: &[u8],
    block: &'a mut [u8],
    run: &'a mut [u32],
) -> Result<Taking<'a>, Malformed> {
    check_rows(file)?;
    let mut taking = Taking::new(block, run);
    for list in LISTS {
        taking.take_list(file, list)?;
    }
    Ok(taking)
}

// The context of a file: how many bytes of the block and how many numbers of the run it has, or what is wrong with it. These are the lines of
// `read_context`, since `ground` takes more instructions by a call of it, which moves what is lent.
pub fn take_context(file: &[u8], block: &mut [u8], run: &mut [u32]) -> Result<Taken, Malformed> {
    check_rows(file)?;
    let mut taking = Taking::new(block, run);
    for list in LISTS {
        taking.take_list(file, list)?;
    }
    Ok(taking.taken())
}

#[cfg(test)]
mod tests {
    use super::*;
    use crate::context_names::List;

    // What was read can be looked at, taken further and looked at again. A list that is taken once more stands behind the others, with its count.
    #[test]
    fn a_context_that_was_read_can_be_looked_at_and_taken_further(rt: HostRuntime) {
        let mut block = [0; 16];
        let mut run = [0; 16];
        let read = read_context(b"parameters CL V", &mut block, &mut run);
        assert!(rt; read.is_ok());
        let Ok(mut taking) = read else {
            return;
        };
        assert_eq!(rt; taking.context().block, b"CLV".as_slice());
        assert_eq!(rt;
            taking.context().lists,
            [2, 0, 0, 0, 0, 0, 0, 0, 2, 2, 1].as_slice()
        );
        assert!(rt; taking.take_list(b"columns WT", List::Columns).is_ok());
        assert_eq!(rt; taking.context().block, b"CLVWT".as_slice());
        assert_eq!(rt;
            taking.context().lists,
            [2, 0, 0, 0, 1, 0, 0, 0, 2, 2, 1, 3, 2].as_slice()
        );
        let taken = taking.taken();
        assert_eq!(rt; taken.context(&block, &run).block, b"CLVWT".as_slice());
    }

    // What is wrong is told, and nothing answers for a context.
    #[test]
    fn a_row_of_no_list_is_told(rt: HostRuntime) {
        let mut block = [0; 16];
        let mut run = [0; 16];
        assert!(rt;
            matches!(
                read_context(b"parameters CL\ncolour WT", &mut block, &mut run),
                Err(Malformed {
                    cause: Cause::UnknownRow,
                    place: 14
                })
            )
        );
    }

    // A run that has no room for a number is no harm to one who looks.
    #[test]
    fn a_run_without_room_can_be_looked_at(rt: HostRuntime) {
        let mut block = [0; 16];
        let mut run = [0; 3];
        let mut taking = Taking::new(&mut block, &mut run);
        assert!(rt;
            matches!(
                taking.take_list(b"columns WT", List::Columns),
                Err(Malformed {
                    cause: Cause::TooMuch,
                    place: 8
                })
            )
        );
        assert_eq!(rt; taking.context().lists.len(), 0);
    }
}
