ghost use Rattle.std.specs.Prelude.{◌≡◌, ◌++◌, ◌∷◌, [], OnOk, map};
ghost use Rattle.cx_lex.specs.declared.token.Punct.TheVariants.{RightParenthesis};
ghost use Rattle.straight_tree.specs.Tokens as tokens;
ghost use Rattle.straight_tree.specs.Views.{declarator_view, param_view, params, spec_view, specs_list, specs_view};

use crate::declarator::{Declarator, Param, Spec, Specs};
use crate::tokens::own::{later, put_key, put_mark, put_own};
use cr_base::{Items, Memory};
use cx_lex::{Keyword, Punct, Token, TokenKind};

fn keyword_of(spec: Spec) -> Keyword
    ensures { result ≡ tokens.spec_keyword (spec_view spec) }
{
    match spec {
        Spec::Int => Keyword::Int,
        Spec::Void => Keyword::Void,
    }
}

fn put_spec_list(out: &mut Items<Token>, list: &[Spec], lines: &[u32]) -> Result<(), Memory>
    ensures { OnOk result (out.new ≡ out.old ++ tokens.spec_list_tokens (specs_list (map spec_view list.now)) lines.now) }
{
    let mut ahead = lines;
    for spec in list {
        put_key(out, ahead, 0, keyword_of(*spec))?;
        ahead = later(ahead);
    }
    Ok(())
}

pub fn put_specs(out: &mut Items<Token>, specs: &Specs) -> Result<(), Memory>
    ensures { OnOk result (out.new ≡ out.old ++ tokens.specs_tokens (specs_view specs.now)) }
{
    put_spec_list(out, specs.list.as_slice(), specs.lines.as_slice())
}

#[cycle(declarator_tokens)]
pub fn put_declarator(out: &mut Items<Token>, declarator: &Declarator) -> Result<(), Memory>
    ensures { OnOk result (out.new ≡ out.old ++ tokens.declarator_tokens (declarator_view declarator.now)) }
{
    match declarator {
        Declarator::Missing => Ok(()),
        Declarator::Identifier { name, lines } => {
            put_own(out, lines.as_slice(), 0, TokenKind::Word(name.copy()?))
        }
        Declarator::Function { of, params, lines } => {
            put_declarator(out, of.get())?;
            put_mark(out, lines.as_slice(), 0, Punct::LeftParenthesis)?;
            put_params(out, params.as_slice(), later(lines.as_slice()))
        }
    }
}

#[cycle(declarator_tokens)]
fn put_param(out: &mut Items<Token>, param: &Param) -> Result<(), Memory>
    ensures { OnOk result (out.new ≡ out.old ++ tokens.param_tokens (param_view param.now)) }
{
    put_specs(out, &param.specs)?;
    put_declarator(out, &param.declarator)
}

// Appends parameters, and the closing parenthesis.
#[cycle(declarator_tokens)]
fn put_params(out: &mut Items<Token>, list: &[Param], lines: &[u32]) -> Result<(), Memory>
    ensures { OnOk result (out.new ≡ out.old ++ tokens.listed RightParenthesis (tokens.params_tokens (params (map param_view list.now))) lines.now) }
{
    let Some((first, others)) = list.split_first() else {
        return put_mark(out, lines, 0, Punct::RightParenthesis);
    };
    put_param(out, first)?;
    let mut ahead = lines;
    for param in others {
        put_mark(out, ahead, 0, Punct::Comma)?;
        put_param(out, param)?;
        ahead = later(ahead);
    }
    put_mark(out, ahead, 0, Punct::RightParenthesis)
}
