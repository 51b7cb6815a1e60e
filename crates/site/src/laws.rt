//! What holds of every script of a site, and of every decision. The functions do nothing: their
//! contracts are the laws.
ghost use Rattle.site.specs.Decision.{DecidedByCalls};
ghost use Rattle.site.specs.Laws.{FilesGiveModules, OneSiteOutput, SiteAskingChangesNothing, SiteExplainedOutput, SiteFrontsAgree, SiteFrontsBeginOutput, SitePlainOutput};

/// A site's script has one output: it depends on the script, on the plugins' names, weights and
/// fuels, and on the bytes of their modules alone, so that it is the same with any number of
/// workers. What a run writes that is cut short begins it. Where it is known what the plugins'
/// files have, their modules are the same in each run. What explains it is the same output, with
/// lines put in that begin with two spaces; without all lines that begin so both are the same, and
/// where nothing is asked of the rules alone that is the output, byte for byte. To ask changes
/// nothing: the output is the one without the questions, with their answers put in.
pub fn one_site_output()
    ensures whole { OneSiteOutput }
    ensures front { SiteFrontsBeginOutput }
    ensures fronts { SiteFrontsAgree }
    ensures files { FilesGiveModules }
    ensures explained { SiteExplainedOutput }
    ensures plain { SitePlainOutput }
    ensures asking { SiteAskingChangesNothing }
{
    wbin::one_module();
    whost::one_image();
}

/// What is decided by the rules of a kit of a site's plugins is decided by the plugins' calls: each
/// begins from the plugin's image, has its fuel, and is given the records of the pod, the node and
/// what is used of the node. So what a run, an explanation and a storm promise by a kit's rules is
/// promised by these calls.
pub fn decided_by_calls()
    ensures { DecidedByCalls }
{
    plugin::rules_are_calls();
}
