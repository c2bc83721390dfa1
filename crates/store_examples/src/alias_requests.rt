use alias_table::{Action, Pair, PlanError, plan};
use plain_data::{List, Text};
use std::alloc::Global;
use std::test::Fail;

// indices; aliases; actions (`+` adds, `-` removes an alias, `!` an index); what is left and what
// was removed, or why nothing is done
const CASES: &str = "x y;;+k:x;k:x;
x;;+k:x +k:z;NoIndex z;
x y;k:x;+k:x;k:x;
x y;k:x;+k:y;AliasTaken k x;
x y;k:x;-k:x +k:y;k:y;
x y;k:x;-k:y;AliasMissing k y;
x y;k:x;-j:x;AliasMissing j x;
x;;+x:x;NameTaken x;
x y;b:x d:y;+c:x +a:y +e:x;a:y b:x c:x d:y e:x;
x y;a:x b:y c:x;!x;b:y;x
x;;!y;NoIndex y;
x y;k:x;!x +k:x;NoIndex x;
x y;k:x;!x +x:y;x:y;x";

fn names(alloc: Global, words: &str) -> Result<List<Text>, Fail> {
    let mut names = List::new(alloc);
    for word in words.split_ascii_whitespace() {
        names.push(Text::from_str(alloc, word)?)?;
    }
    Ok(names)
}

fn pair(alloc: Global, word: &str) -> Result<Pair, Fail> {
    let (alias, index) = word.split_once(':').unwrap_or(("", ""));
    Ok(Pair {
        alias: Text::from_str(alloc, alias)?,
        index: Text::from_str(alloc, index)?,
    })
}

fn pairs(alloc: Global, words: &str) -> Result<List<Pair>, Fail> {
    let mut pairs = List::new(alloc);
    for word in words.split_ascii_whitespace() {
        pairs.push(pair(alloc, word)?)?;
    }
    Ok(pairs)
}

fn action(alloc: Global, word: &str) -> Result<Action, Fail> {
    if let Some(index) = word.strip_prefix('!') {
        return Ok(Action::RemoveIndex(Text::from_str(alloc, index)?));
    }
    if let Some(words) = word.strip_prefix('-') {
        let Pair { alias, index } = pair(alloc, words)?;
        return Ok(Action::RemoveMustExist { alias, index });
    }
    let Pair { alias, index } = pair(alloc, word.strip_prefix('+').unwrap_or(""))?;
    Ok(Action::Add { alias, index })
}

fn actions(alloc: Global, words: &str) -> Result<List<Action>, Fail> {
    let mut actions = List::new(alloc);
    for word in words.split_ascii_whitespace() {
        actions.push(action(alloc, word)?)?;
    }
    Ok(actions)
}

fn error_text(alloc: Global, error: &PlanError) -> Result<String, Fail> {
    Ok(match error {
        PlanError::Memory => format!(in alloc; "Memory")?,
        PlanError::AliasMissing { alias, index } => {
            let (alias, index) = (alias.as_str(), index.as_str());
            format!(in alloc; "AliasMissing {alias} {index}")?
        }
        PlanError::AliasTaken { alias, index } => {
            let (alias, index) = (alias.as_str(), index.as_str());
            format!(in alloc; "AliasTaken {alias} {index}")?
        }
        PlanError::NameTaken(name) => {
            let name = name.as_str();
            format!(in alloc; "NameTaken {name}")?
        }
        PlanError::NoIndex(name) => {
            let name = name.as_str();
            format!(in alloc; "NoIndex {name}")?
        }
    })
}

#[test]
fn plans(rt: HostRuntime) -> Result<(), Fail> {
    let alloc = rt.alloc();
    for case in CASES.split('\n') {
        let (indices, rest) = case.split_once(';').unwrap_or(("", ""));
        let (aliases, rest) = rest.split_once(';').unwrap_or(("", ""));
        let (done, rest) = rest.split_once(';').unwrap_or(("", ""));
        let (left, removed) = rest.split_once(';').unwrap_or(("", ""));
        let aliases = pairs(alloc, aliases)?;
        match plan(&aliases, &names(alloc, indices)?, &actions(alloc, done)?) {
            Ok(planned) => {
                assert!(rt; planned.aliases == pairs(alloc, left)?, "{case}");
                assert!(rt; planned.removed == names(alloc, removed)?, "{case}");
            }
            Err(error) => assert_eq!(rt; error_text(alloc, &error)?.as_str(), left, "{case}"),
        }
    }
    Ok(())
}
