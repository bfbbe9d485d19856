//! The code of a file, by the numbers of its addresses.

use crate::numbered::Numbered;
use code_view::Code;

impl<'a> Numbered for Code<'a> {
    ghost use Rattle.chain_index.specs.Numbers.{codes_below};

    ghost number = { λ code. codes_below code.bytes };

    fn numbers(&self) -> u32 {
        self.index().numbers()
    }

    fn number(&self, a: u64) -> u32 {
        self.index().number(a)
    }

    fn address(&self, n: u32) -> Option<u64> {
        let index = self.index();
        if n < index.numbers() {
            Some(index.address(n))
        } else {
            None
        }
    }
}
