// The command table, and the search in it.
ghost use Rattle.std.specs.Prelude.{◌≡◌};
ghost use Rattle.word_table.specs.Table.{fits_b, row_of, found_of};

// The option that a command needs of its drive.
#[derive(Clone, Copy)]
pub enum Needs {
    Free,
    Motor,
    Offsets,
    Hard,
}

// What a command asks of its drive: nothing, that it is ready, or that its position is known too.
#[derive(Clone, Copy)]
pub enum Asks {
    Nothing,
    Ready,
    Position,
}

#[derive(Clone, Copy)]
pub enum Command {
    Seek,
    Recalibrate,
    Status,
    Configuration,
    Clear,
    Stop,
    Start,
    Restore,
    Plus,
    Minus,
    Diagnose,
    Sector,
}

// A code, its modifiers from the first to the last, the option needed, what is asked of the drive, the command.
#[derive(Clone, Copy)]
pub struct Row {
    pub code: u8,
    pub from: u8,
    pub to: u8,
    pub needs: Needs,
    pub asks: Asks,
    pub command: Command,
}

const ROWS: [Row; 12] = [
    Row {
        code: 0,
        from: 0,
        to: 15,
        needs: Needs::Free,
        asks: Asks::Position,
        command: Command::Seek,
    },
    Row {
        code: 1,
        from: 0,
        to: 0,
        needs: Needs::Free,
        asks: Asks::Ready,
        command: Command::Recalibrate,
    },
    Row {
        code: 2,
        from: 0,
        to: 0,
        needs: Needs::Free,
        asks: Asks::Nothing,
        command: Command::Status,
    },
    Row {
        code: 3,
        from: 0,
        to: 15,
        needs: Needs::Free,
        asks: Asks::Nothing,
        command: Command::Configuration,
    },
    Row {
        code: 5,
        from: 0,
        to: 0,
        needs: Needs::Free,
        asks: Asks::Nothing,
        command: Command::Clear,
    },
    Row {
        code: 5,
        from: 2,
        to: 2,
        needs: Needs::Motor,
        asks: Asks::Nothing,
        command: Command::Stop,
    },
    Row {
        code: 5,
        from: 3,
        to: 3,
        needs: Needs::Motor,
        asks: Asks::Nothing,
        command: Command::Start,
    },
    Row {
        code: 7,
        from: 0,
        to: 1,
        needs: Needs::Offsets,
        asks: Asks::Position,
        command: Command::Restore,
    },
    Row {
        code: 7,
        from: 2,
        to: 2,
        needs: Needs::Offsets,
        asks: Asks::Position,
        command: Command::Plus,
    },
    Row {
        code: 7,
        from: 3,
        to: 3,
        needs: Needs::Offsets,
        asks: Asks::Position,
        command: Command::Minus,
    },
    Row {
        code: 8,
        from: 0,
        to: 0,
        needs: Needs::Free,
        asks: Asks::Nothing,
        command: Command::Diagnose,
    },
    Row {
        code: 9,
        from: 0,
        to: 15,
        needs: Needs::Hard,
        asks: Asks::Nothing,
        command: Command::Sector,
    },
];

impl Row {
    fn fits(&self, code: u8, modifier: u8) -> bool
        ensures { result ≡ fits_b code modifier self.now }
    {
        self.code == code && self.from <= modifier && modifier <= self.to
    }
}

// The number of the first row that fits; the one behind the last stands for the invalid row.
// Stays: a rule of the project: document 01 names a search that break leaves, yielding the row's number or the invalid row.
fn row_of(code: u8, modifier: u8) -> usize
    ensures { result ≡ row_of code modifier }
{
    let mut number = ROWS.len();
    for (i, row) in ROWS.iter().enumerate() {
        if row.fits(code, modifier) {
            number = i;
            break;
        }
    }
    number
}

// The first row that fits; of other codes none.
// Stays: tried ROWS.get(number).copied(): that it is what found_of reads, slice_get, stayed open (returns).
#[tactic(auto, unfolding(crate::specs::Table::found_of))]
pub(crate) fn found(code: u8, modifier: u8) -> Option<Row>
    ensures { result ≡ found_of code modifier }
{
    let number = row_of(code, modifier);
    if number < ROWS.len() {
        return Some(ROWS[number]);
    }
    None
}
