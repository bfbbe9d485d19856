//! The extensions that words on the command line name.

use elf_image::Extensions;

/// These extensions, and the one of this name; none if there is no such name.
pub fn with_name(mut extensions: Extensions, name: &str) -> Option<Extensions> {
    match name {
        "zba" => extensions.zba = true,
        "zbb" => extensions.zbb = true,
        "zbs" => extensions.zbs = true,
        "zbc" => extensions.zbc = true,
        "zbkb" => extensions.zbkb = true,
        "zbkc" => extensions.zbkc = true,
        "zbkx" => extensions.zbkx = true,
        "zknd" => extensions.zknd = true,
        "zkne" => extensions.zkne = true,
        "zknh" => extensions.zknh = true,
        "zksed" => extensions.zksed = true,
        "zksh" => extensions.zksh = true,
        "zicond" => extensions.zicond = true,
        "zcb" => extensions.zcb = true,
        "zcmp" => extensions.zcmp = true,
        "zcmt" => extensions.zcmt = true,
        "zimop" => extensions.zimop = true,
        "zcmop" => extensions.zcmop = true,
        "zacas" => extensions.zacas = true,
        "zabha" => extensions.zabha = true,
        "zawrs" => extensions.zawrs = true,
        "zicbom" => extensions.zicbom = true,
        "zicboz" => extensions.zicboz = true,
        "zicfiss" => extensions.zicfiss = true,
        "zicfilp" => extensions.zicfilp = true,
        "zfinx" => extensions.zfinx = true,
        "zhinx" => extensions.zhinx = true,
        "zhinxmin" => extensions.zhinxmin = true,
        "zfh" => extensions.zfh = true,
        "zfhmin" => extensions.zfhmin = true,
        "zfa" => extensions.zfa = true,
        "zfbfmin" => extensions.zfbfmin = true,
        "zvfh" => extensions.zvfh = true,
        "xthead" => extensions.xthead = true,
        "v" => extensions.vector = true,
        _ => return None,
    }
    Some(extensions)
}
