// A row of the table taken apart to its columns.
ghost use Rattle.std.specs.Prelude.{◌<◌};

pub(crate) const COLUMNS: usize = 7;

#[derive(Clone, Copy)]
pub(crate) struct Row {
    pub kind: u8,
    pub number: u8,
    pub spread: u8,
    pub value: u8,
    pub step: u8,
    pub most: u8,
    pub times: u8,
}

// A row of the table lent. "Each row that is looked up is one of the table", and no times pass 127: the zeros and the remainder are
// there so that neither need be shown.
pub(crate) fn row_at(rows: &[[u8; COLUMNS]], at: u16) -> Row
    ensures { result.times < 128 }
{
    let columns = rows.get(at as usize).copied();
    let [kind, number, spread, value, step, most, times] = columns.unwrap_or([0; COLUMNS]);
    Row {
        kind,
        number,
        spread,
        value,
        step,
        most,
        times: times % 128,
    }
}
