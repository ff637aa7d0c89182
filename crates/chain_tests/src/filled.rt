use base64::engine::general_purpose::STANDARD;
use std::alloc::{AllocError, Global};
use std::mem;
use wasm_writer::{echo, keeper, sign, spin, write};

pub const ONE: &str = "abcdef1qpzry9x8gf2tvdw0s3jn54khce6mua7lmqqqxw";

/// The same address.
pub const UPPER: &str = "ABCDEF1QPZRY9X8GF2TVDW0S3JN54KHCE6MUA7LMQQQXW";

pub const OTHER: &str = "abcdef1qpzry9x8gf2tvdw0s3jn54khce6mua77xk54mu";

/// The address that a name stands for, or the name itself where no address has it. A digit is the
/// contract of this code and instance; behind the first code's digit stands another instance or a salt.
fn address_of(name: &str) -> &str {
    match name {
        "A" => ONE,
        "B" => OTHER,
        "C" => "abcdef1qpzry9x8gf2tvdw0s3jn54khce6mua7ag9pr4r",
        "U" => UPPER,
        "1" => "abcdef14hj2tavq8fpesdwxxcu44rty3hh90vhujrvcmstl4zr3txmfvw9snfwp3c",
        "U1" => "ABCDEF14HJ2TAVQ8FPESDWXXCU44RTY3HH90VHUJRVCMSTL4ZR3TXMFVW9SNFWP3C",
        "1.2" => "abcdef1suhgf5svhu4usrurvxzlgn54ksxmn8gljarjtxqnapv8kjnp4nrsvuz5e3",
        "1.3" => "abcdef1yyca08xqdgvjz0psg56z67ejh9xms6l436u8y58m82npdqqhmmtqpck3mt",
        "1s" => "abcdef16r0vk0zn82auft7wm7c3f08nl77gfe2rqp669zudhdxp5avy2d3sq29pqx",
        "1a" => "abcdef1k80t2erldkwmlaa98gtunmukeydkkr9es567l2y9t7t0gyus723spnn7nf",
        "1sB" => "abcdef1eu7d59xeagy3ta6pkvusck07f7dyzzvhkxww8ucaxep3wem4ucfszhu3ue",
        "2" => "abcdef1nc5tatafv6eyq7llkr2gv50ff9e22mnf70qgjlv737ktmt4eswrqlutrn7",
        "3" => "abcdef17p9rzwnnfxcjp32un9ug7yhhzgtkhvl9jfksztgw5uh69wac2pgs884x66",
        "4" => "abcdef1ghd753shjuwexxywmgs4xz7x2q732vcnkm6h2pyv9s6ah3hylvrqm3cl6m",
        "5" => "abcdef1eyfccmjm6732k7wp4p6gdjwhxjwsvje44j0hfx8nkgrm8fs7vqfsqx8ea2",
        "6" => "abcdef1pvrwmjuusn9wh34j7y520g8gumuy9xtl3gvprlljfdpwju3x7ucs4qd29h",
        "7" => "abcdef10qt8wg0n7z740ssvf3urmvgtjhxpyp74hxqvqt7z226gykuus7eq438gvs",
        _ => name,
    }
}

/// The code of the sample contract with this name, if there is one.
fn sample(alloc: Global, name: &str) -> Result<Option<Vec<u8>>, AllocError> {
    match name {
        "ECHO" => Ok(Some(write(alloc, &echo(alloc)?)?)),
        "SPIN" => Ok(Some(write(alloc, &spin(alloc)?)?)),
        "KEEPER" => Ok(Some(write(alloc, &keeper(alloc)?)?)),
        "SIGN" => Ok(Some(write(alloc, &sign(alloc)?)?)),
        _ => Ok(None),
    }
}

/// The text with what stands between `<` and `>` in base64, from the inside out.
fn encoded(alloc: Global, text: &str) -> Result<String, AllocError> {
    let mut outer = Vec::new(alloc);
    let mut whole = String::new(alloc);
    for letter in text.chars() {
        match letter {
            '<' => outer.push(mem::replace(&mut whole, String::new(alloc)))?,
            '>' => {
                let inner = STANDARD.encode(alloc, whole.as_bytes())?;
                whole = outer.pop().unwrap_or(String::new(alloc));
                whole.push_str(inner.as_str())?;
            }
            _ => whole.push(letter)?,
        }
    }
    Ok(whole)
}

/// The text with addresses, and codes in base64, in place of their names between `%` and `%`, and then
/// with what stands between `<` and `>` in base64.
pub fn filled(alloc: Global, text: &str) -> Result<String, AllocError> {
    let mut whole = String::new(alloc);
    for piece in text.split('%') {
        match sample(alloc, piece)? {
            Some(code) => whole.push_str(STANDARD.encode(alloc, &code)?.as_str())?,
            None => whole.push_str(address_of(piece))?,
        }
    }
    encoded(alloc, whole.as_str())
}
