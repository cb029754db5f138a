//! The mnemonics of the opcodes (JVMS 6.5 and 7).

ghost use Rattle.std.specs.Prelude.{◌≡◌, ◌++◌, OnOk};
ghost use Rattle.scw_dis.specs.Mnemonic.{mnemonic, word};

use scw_code::MNEMONICS;
use std::alloc::AllocError;

/// Writes the word with the number, from 0, of words with a space between two of them.
fn write_word(words: &[u8], number: usize, out: &mut Vec<char>) -> Result<(), AllocError>
    ensures { OnOk result (out.new.items ≡ out.old.items ++ word number words.now) }
{
    let mut left = number;
    for byte in words {
        if *byte == b' ' {
            if left == 0 {
                return Ok(());
            }
            left -= 1;
        } else if left == 0 {
            out.push(char::from(*byte))?;
        }
    }
    Ok(())
}

/// Writes the mnemonic of the opcode, or nothing where the table has no such opcode.
#[tactic(auto, unfolding(crate::specs::Mnemonic::mnemonic))]
pub fn write_mnemonic(opcode: u8, out: &mut Vec<char>) -> Result<(), AllocError>
    ensures { OnOk result (out.new.items ≡ out.old.items ++ mnemonic opcode) }
{
    write_word(MNEMONICS, usize::from(opcode), out)
}
