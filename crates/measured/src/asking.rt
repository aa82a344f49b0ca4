// Questions by number, and their answers as numbers.
use classes::class::Class;
use vocabulary::fault::StoreFault;
use vocabulary::frame_error::FrameError;

#[derive(Clone, Copy)]
pub enum Question {
    Class,
    Retry,
    Cause,
}

impl Question {
    pub fn of(number: u8) -> Option<Question> {
        match number {
            0 => Some(Question::Class),
            1 => Some(Question::Retry),
            2 => Some(Question::Cause),
            _ => None,
        }
    }
}

// 0 for a refusal, 1 for no class, else the rank above 2.
pub fn class_number(answer: Result<Option<Class>, StoreFault>) -> u64 {
    match answer {
        Ok(Some(class)) => u64::from(class.rank()) + 2,
        Ok(None) => 1,
        Err(_) => 0,
    }
}

// 0 for a refusal, 1 for no and 2 for yes.
pub fn retry_number(answer: Result<bool, StoreFault>) -> u64 {
    match answer {
        Ok(true) => 2,
        Ok(false) => 1,
        Err(_) => 0,
    }
}

// 0 for a refusal, else the error's number and 1.
pub fn cause_number(answer: Result<FrameError, StoreFault>) -> u64 {
    match answer {
        Ok(error) => u64::from(error.number()) + 1,
        Err(_) => 0,
    }
}
