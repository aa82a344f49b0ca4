// Prints of one report or chain, repeated.
use nodes::node::Node;
use prints::chain::{print_chain, print_chain_inline};
use prints::report::print_tree;
use store::chain::ChainedError;
use store::store::Store;
use store::token::Refusal;
use table_host::table::TableHost;
use vocabulary::fault::PrintFault;

#[derive(Clone, Copy)]
pub enum Form {
    Tree,
    Lines,
    Inline,
}

impl Form {
    pub fn of(number: u8) -> Option<Form> {
        match number {
            0 => Some(Form::Tree),
            1 => Some(Form::Lines),
            2 => Some(Form::Inline),
            _ => None,
        }
    }
}

// 0 for a refusal.
fn length_number(answer: Result<usize, PrintFault>) -> u64 {
    match answer {
        Ok(length) => length as u64,
        Err(_) => 0,
    }
}

fn print_trees(host: &TableHost, list: &mut [Node], out: &mut [u8], repeats: u32) -> u64 {
    let mut store = Store::new(1);
    match ChainedError::of(list).into_exn(&mut store, host, list) {
        Ok(report) => {
            let mut sum: u64 = 0;
            for _ in 0..repeats {
                let printed = print_tree(&store, host, &report, list, out);
                sum = sum.wrapping_add(length_number(printed));
            }
            report.discard(&mut store).unwrap();
            sum
        }
        Err(Refusal { fault: _, given: _ }) => 0,
    }
}

pub fn print(host: &TableHost, list: &mut [Node], out: &mut [u8], form: Form, repeats: u32) -> u64 {
    let chain = ChainedError::of(list);
    let mut sum: u64 = 0;
    match form {
        Form::Tree => return print_trees(host, list, out, repeats),
        Form::Lines => {
            for _ in 0..repeats {
                sum = sum.wrapping_add(length_number(print_chain(&chain, host, list, out)));
            }
        }
        Form::Inline => {
            for _ in 0..repeats {
                sum = sum.wrapping_add(length_number(print_chain_inline(&chain, host, list, out)));
            }
        }
    }
    sum
}
